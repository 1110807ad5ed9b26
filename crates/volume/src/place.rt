// The place of each item of a volume, and its bytes. Slots are counted from 1; 0 has the place of 1. A log record and a
// note are found by their number, through the slot that they go to.
ghost use Rattle.std.specs.Prelude.{◌≡◌, ◌+◌, ◌-◌, ◌≤◌, length};
ghost use Rattle.model.specs.Bytes as bytes;
ghost use Rattle.model.specs.Geometry.{page_at, slot_at, record_at, note_at, log_slot, note_slot, start, item};

use crate::ring;
use model::geometry::Geometry;

// How many items stand before item i.
fn before(i: u32) -> usize
    ensures { (result ≡ i - 1) × (result ≤ 4294967295) }
{
    if i == 0 { 0 } else { (i - 1) as usize }
}

// Where a page's image starts. The pages come first, so that no count of the geometry moves them.
pub fn page_at(g: Geometry, i: u32) -> usize
    ensures { result ≡ start g (page_at i) }
{
    8 + 256 * before(i)
}

// Where a backup slot starts.
pub fn slot_at(g: Geometry, i: u32) -> usize
    ensures { result ≡ start g (slot_at i) }
{
    12 + 256 * (g.pages as usize) + 256 * before(i)
}

// Where a log slot starts.
pub fn record_at(g: Geometry, i: u32) -> usize
    ensures { result ≡ start g (record_at i) }
{
    16 + 256 * (g.pages as usize) + 256 * (g.slots as usize) + 64 * before(i)
}

// Where a note slot starts.
pub fn note_at(g: Geometry, i: u32) -> usize
    ensures { result ≡ start g (note_at i) }
{
    20 + 256 * (g.pages as usize)
        + 256 * (g.slots as usize)
        + 64 * (g.records as usize)
        + 16 * before(i)
}

// Where log record n is stored.
pub fn log_slot(g: Geometry, n: u32) -> usize
    requires { 1 ≤ g.records }
    ensures { result ≡ start g (log_slot g n) }
{
    record_at(g, ring::slot_of(g.records, n))
}

// Where note n is stored.
pub fn note_slot(g: Geometry, n: u32) -> usize
    requires { 1 ≤ g.notes }
    ensures { result ≡ start g (note_slot g n) }
{
    note_at(g, ring::slot_of(g.notes, n))
}

// The bytes of a part.
pub fn part(v: &[u8], at: usize, size: usize) -> &[u8]
    requires { at + size ≤ length v.now }
    ensures { result.now ≡ bytes.part v.now at size }
{
    let end = at + size;
    &v[at..end]
}

// The same as an array.
pub fn array<const N: usize>(v: &[u8], at: usize) -> &[u8; N]
    requires { at + N ≤ length v.now }
    ensures { result.now ≡ bytes.part v.now at N }
{
    part(v, at, N).as_array().unwrap()
}

// A page's image.
pub fn page(v: &[u8], g: Geometry, i: u32) -> &[u8; 256]
    requires { start g (page_at i) + 256 ≤ length v.now }
    ensures { result.now ≡ item g v.now (page_at i) }
{
    array(v, page_at(g, i))
}

// A backup slot's image.
pub fn slot(v: &[u8], g: Geometry, i: u32) -> &[u8; 256]
    requires { start g (slot_at i) + 256 ≤ length v.now }
    ensures { result.now ≡ item g v.now (slot_at i) }
{
    array(v, slot_at(g, i))
}

// The bytes of log record n.
pub fn record(v: &[u8], g: Geometry, n: u32) -> &[u8; 64]
    requires { (1 ≤ g.records) × (start g (log_slot g n) + 64 ≤ length v.now) }
    ensures { result.now ≡ item g v.now (log_slot g n) }
{
    array(v, log_slot(g, n))
}

// The bytes of note n.
pub fn note(v: &[u8], g: Geometry, n: u32) -> &[u8; 16]
    requires { (1 ≤ g.notes) × (start g (note_slot g n) + 16 ≤ length v.now) }
    ensures { result.now ≡ item g v.now (note_slot g n) }
{
    array(v, note_slot(g, n))
}
