// The disk's part, and the plug's: bytes that are old again, or spoiled. No call of the store is used here.
ghost use Rattle.std.specs.Prelude.{◌≡◌, ◌-◌, ◌≤◌, length};
ghost use Rattle.model.specs.Bytes.{part, splice};
ghost use Rattle.model.specs.Tables.{smaller};
ghost use Rattle.checklist_steps.specs.Disk.{size, given_back, spoiled};

use codec::part;

// Where the items that are damaged stand in a volume of 2 pages, 1 slot, 16 records and 8 notes.
pub const SIZE: usize = 20 + 256 * 2 + 256 + 64 * 16 + 16 * 8;

pub type Volume = [u8; SIZE];
// With 2 frames.
pub type Memory = [u8; 1536];

pub type Image = [u8; 256];

pub const PAGE: usize = 8;

pub const SLOT: usize = 12 + 256 * 2;

pub const RECORD: usize = 16 + 256 * 2 + 256 + 64 * 2;

// The image that stands at a place of a volume; a place past the last one that holds a whole image counts as that.
pub fn image(volume: &Volume, at: usize) -> Image
    ensures { result ≡ part volume.now (smaller at (size - 256)) 256 }
{
    let from = at.min(SIZE - 256);
    let mut image = [0u8; 256];
    image.copy_from_slice(&volume[from..from + 256]);
    image
}

// Makes the bytes of a volume from a place to another, or to the end, those of an older copy.
pub fn give_back(volume: &mut Volume, old: &Volume, from: usize, to: usize)
    ensures { volume.new ≡ given_back volume.old old.now from to }
{
    let end = to.min(SIZE);
    if from < end {
        part::put(volume, from, &old[from..end]);
    }
}

// Spoils the bytes from a place to another.
pub fn spoil(volume: &mut Volume, from: usize, to: usize)
    ensures { volume.new ≡ spoiled volume.old from to }
{
    let junk = [b'#'; SIZE];
    give_back(volume, &junk, from, to);
}
