// What stands in a slot of the log, the notes or the backups.
ghost use Rattle.std.specs.Prelude.{◌≡◌, cond};
ghost use Rattle.face.specs.Slots as specs;
ghost use Rattle.face.specs.Slots.{record_numbers, stored_note_numbers, backup_numbers};

use codec::{field, part};
use item::{image, note, record};
use model::geometry::Geometry;
use sums::check::Check;
use sums::checksum::WordSum;

// What stands in a slot: zeros, an item that passes its check, or neither.
fn standing(zero: bool, whole: bool) -> u32
    ensures { result ≡ cond zero 0 (cond whole 1 2) }
{
    if zero {
        0
    } else if whole {
        1
    } else {
        2
    }
}

// What stands in a slot of n bytes and a checksum.
fn stands(x: &[u8], n: usize) -> u32
    ensures { result ≡ specs.standing n x.now }
{
    standing(part::zero(x), WordSum::holds(x, n))
}

pub fn record_numbers(x: &[u8]) -> [u32; 8]
    ensures { result ≡ record_numbers x.now }
{
    let e = record::read(x);
    [
        stands(x, 60),
        e.lsn,
        e.prev,
        e.page as u32,
        e.kind as u32,
        e.length as u32,
        e.offset as u32,
        e.fill as u32,
    ]
}

pub fn note_numbers(x: &[u8]) -> [u32; 8]
    ensures { result ≡ stored_note_numbers x.now }
{
    let e = note::read(x);
    [
        stands(x, 12),
        e.number,
        e.page as u32,
        e.kind as u32,
        e.slot as u32,
        e.lsn,
        0,
        0,
    ]
}

pub fn backup_numbers(g: Geometry, x: &[u8]) -> [u32; 8]
    ensures { result ≡ backup_numbers g x.now }
{
    let page = u32::from(field::u16_at(x, 0));
    let whole = ((1 <= page) & (page <= g.pages)) & image::valid(g, page, x);
    let stands = standing(part::zero(x), whole);
    [stands, page, image::lsn(x), 0, 0, 0, 0, 0]
}
