// A note: its fields read, its layout judged, its bytes built.
ghost use Rattle.std.specs.Prelude.{◌≡◌, length};
ghost use Rattle.model.specs.Item.{note_of, note_layout, note_bytes};

use codec::field;
use model::item::Note;
use sums::check::Check;
use sums::checksum::WordSum;

// The kinds of note, by the numbers that they are stored with.
pub const WRITTEN: u8 = 1;

pub const BACKED_UP: u8 = 2;

// Reads a note's fields.
pub fn read(r: &[u8]) -> Note
    ensures { result ≡ note_of r.now }
{
    Note {
        number: field::u32_at(r, 0),
        page: field::u16_at(r, 4),
        kind: field::byte(r, 6),
        slot: field::byte(r, 7),
        lsn: field::u32_at(r, 8),
    }
}

// A note that a page is written names no slot.
pub fn layout(n: Note) -> bool
    ensures { result ≡ note_layout n }
{
    ((n.kind == WRITTEN) & (n.slot == 0)) | (n.kind == BACKED_UP)
}

// Builds a note, its checksum set.
pub fn encode(dst: &mut [u8], n: Note)
    requires { length dst.old ≡ 16 }
    ensures { dst.new ≡ note_bytes n }
{
    field::put_u32(dst, 0, n.number);
    field::put_u16(dst, 4, n.page);
    dst[6] = n.kind;
    dst[7] = n.slot;
    field::put_u32(dst, 8, n.lsn);
    WordSum::set(dst, 12);
}
