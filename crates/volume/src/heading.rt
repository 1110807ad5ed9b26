// What a volume's heading says, and whether heading, counts and length are right. Reads of any bytes are safe.
ghost use Rattle.std.specs.Prelude.{◌≡◌, true, cond, not};
ghost use Rattle.model.specs.Refused.{refusal_number};
ghost use Rattle.model.specs.Bytes.{starts_with};
ghost use Rattle.model.specs.Geometry.{magic, known_magic, length_for, geometry_of, valid_counts, valid_volume};

use codec::field;
use model::answer::Refusal;
use model::geometry::{Geometry, Heading};

// The four bytes that a volume starts with: the first heading, the second, and that of a volume that is being carried
// over from one to the other.
pub const FIRST: [u8; 4] = *b"CHPV";

pub const SECOND: [u8; 4] = *b"CHP2";

pub const CARRY: [u8; 4] = *b"CHPC";

// The four bytes of the heading that Make is asked to write.
pub fn magic_bytes(h: Heading) -> [u8; 4]
    ensures { result ≡ magic h }
{
    match h {
        Heading::First => FIRST,
        Heading::Second => SECOND,
    }
}

// The volume starts with this heading.
pub fn headed(v: &[u8], magic: [u8; 4]) -> bool
    ensures { result ≡ starts_with magic v.now }
{
    v.starts_with(&magic)
}

// The volume starts with one of the three headings.
pub fn known(v: &[u8]) -> bool
    ensures { result ≡ known_magic v.now }
{
    headed(v, FIRST) | (headed(v, SECOND) | headed(v, CARRY))
}

// The geometry; where the volume is not valid the numbers mean nothing.
pub fn geometry(v: &[u8]) -> Geometry
    ensures { result ≡ geometry_of v.now }
{
    let tag = field::byte(v, 3);
    let pages = field::u32_at(v, 4);
    let slots = field::u32_at(v, 8 + 256 * (pages as usize));
    let records = field::u32_at(v, 12 + 256 * (pages as usize) + 256 * (slots as usize));
    let notes = field::u32_at(
        v,
        16 + 256 * (pages as usize) + 256 * (slots as usize) + 64 * (records as usize),
    );
    Geometry {
        tag,
        pages,
        slots,
        records,
        notes,
    }
}

// A volume may have these counts.
pub fn counts(p: u32, b: u32, l: u32, n: u32) -> bool
    ensures { result ≡ valid_counts p b l n }
{
    ((1 <= p) & (p <= 64)) & ((b <= 128) & (((1 <= l) & (l <= 1024)) & (n <= 1024)))
}

// The length of a volume with these counts.
pub fn size(p: u32, b: u32, l: u32, n: u32) -> usize
    ensures { result ≡ length_for p b l n }
{
    20 + 256 * (p as usize) + 256 * (b as usize) + 64 * (l as usize) + 16 * (n as usize)
}

// Counts and length are right too, of a volume with a known heading and this geometry.
pub fn sound(v: &[u8], g: Geometry) -> bool
    requires { (known_magic v.now ≡ true) × (g ≡ geometry_of v.now) }
    ensures { result ≡ valid_volume v.now }
{
    let length = size(g.pages, g.slots, g.records, g.notes);
    counts(g.pages, g.slots, g.records, g.notes) & (v.len() == length)
}

// Heading, counts and length are right. The heading is compared before a count is read.
pub fn valid(v: &[u8]) -> bool
    ensures { result ≡ valid_volume v.now }
{
    if !known(v) {
        return false;
    }
    sound(v, geometry(v))
}

// The refusal of a call that is lent a buffer of another length: the volume is judged first.
pub fn bad_buffer(volume: &[u8]) -> Refusal
    ensures { refusal_number result ≡ cond (not (valid_volume volume.now)) 1 2 }
{
    if valid(volume) {
        Refusal::BadBuffer
    } else {
        Refusal::BadVolume
    }
}
