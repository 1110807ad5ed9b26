// The image in a frame: its page lsn, and its way into the volume.
ghost use Rattle.std.specs.Prelude.{◌≡◌, ◌+◌, ◌≤◌, length};
ghost use Rattle.model.specs.Bytes.{splice};
ghost use Rattle.model.specs.Checksum.{seal_image};
ghost use Rattle.model.specs.Item.{image_lsn};
ghost use Rattle.model.specs.State.{frame_at, frame_bytes};

use codec::field;
use model::geometry::Geometry;
use volume::memory;

// The page lsn of the image in frame f; past the memory's end bytes read as 0.
pub fn lsn(memory: &[u8], f: u32) -> u32
    ensures { result ≡ image_lsn (frame_bytes memory.now f) }
{
    let at = memory::frame_at(f);
    field::u32_at(memory, at + 4)
}

// Stores the image in frame f, its checksum set, at a place of the volume.
pub fn store(volume: &mut [u8], memory: &[u8], g: Geometry, at: usize, f: u32)
    requires { (at + 256 ≤ length volume.old) × (frame_at f + 256 ≤ length memory.now) }
    ensures { volume.new ≡ splice volume.old at (seal_image g (frame_bytes memory.now f)) }
{
    let from = memory::frame_at(f);
    let past = from + 256;
    let frame = &memory[from..past];
    let end = at + 256;
    let slot = &mut volume[at..end];
    item::image::store(slot, frame, g);
}
