// The scan of a volume's log and notes into the page recovery index, for any bytes and without memory or state.
#![tactic(auto)]

ghost use Rattle.std.specs.Prelude.{◌≡◌, true, ◌≤◌, IfOk, IfSome};
ghost use Rattle.model.specs.Refused.{error_number};
ghost use Rattle.model.specs.Geometry.{known_magic, geometry_of};
ghost use Rattle.index.specs.Filled.{Filled, swept_counts};
ghost use Rattle.index.specs.Scanned.{scan_refusal, found_of, counts_of, gone_in, scanned_of};

pub mod notes;

use index_rows::columns::Columns;
use log_scan::{Measured, Swept};
use model::answer::Refusal;
use model::geometry::Geometry;
use model::state::Entry;
use section::guess;
use volume::{Volume, heading, ring};

// What a clean scan counts: the log's run start, and the counts of durable log records and of notes.
#[derive(Clone, Copy)]
pub struct Counts {
    pub first: u64,
    pub durable: u32,
    pub notes: u32,
}

// What a clean scan gives: its counts with the log's run start, and the index.
#[derive(Clone, Copy)]
pub struct Scanned {
    pub first: u64,
    pub durable: u32,
    pub notes: u32,
    pub index: [Entry; 64],
}

// What a clean scan gives of one page, with the log's run start.
#[derive(Clone, Copy)]
pub struct Found {
    pub first: u64,
    pub entry: Entry,
}

// Record 1 has left a log of these counts.
pub fn gone(c: Counts) -> bool
    ensures { result ≡ gone_in c }
{
    (0 < c.durable) & (1 < c.first)
}

// What clean sweeps of the log and of the notes count; `behind`: the number behind the last note.
fn total(g: Geometry, records: Swept, behind: u32) -> Counts
    requires { (records.first ≤ records.next) × (1 ≤ records.next) × (1 ≤ behind) }
    ensures { result ≡ swept_counts g records.first records.next behind }
{
    let held = records.next - records.first;
    Counts {
        first: guess::begun(ring::ring(g), records.first, held),
        durable: records.next - 1,
        notes: behind - 1,
    }
}

// Scans the log and the notes in one pass each, into columns. None where that does not tell what the scan is; what the
// columns hold then means nothing.
fn fast(v: &Volume<'_>, c: &mut Columns) -> Option<Result<Counts, Refusal>>
    requires { c.old ≡ Columns.BLANK }
    ensures { IfSome result (λ r. Filled v.now.bytes.now r c.new) }
{
    let m = Measured::of(v);
    let records = log_scan::sweep(&m, &mut c.last)?;
    let behind = notes::sweep(&m, records, c)?;
    if !c.ordered(v.geometry.pages as usize) {
        return Some(Err(Refusal::BadNotes));
    }
    Some(Ok(total(v.geometry, records, behind)))
}

// The same in two passes each: where the runs lie is found first. This tells of every valid volume.
fn slow(v: &Volume<'_>, c: &mut Columns) -> Result<Counts, Refusal>
    requires { c.old ≡ Columns.BLANK }
    ensures { Filled v.now.bytes.now result c.new }
{
    let m = Measured::of(v);
    let records = log_scan::run(&m);
    if !log_scan::scan(&m, records, &mut c.last) {
        return Err(Refusal::BadLog);
    }
    let numbers = notes::run(&m);
    let fit = notes::scan(&m, records, numbers, c);
    if !(fit & c.ordered(v.geometry.pages as usize)) {
        return Err(Refusal::BadNotes);
    }
    Ok(Counts {
        first: records.first,
        durable: records.count,
        notes: numbers.count,
    })
}

// Scans a volume with a known heading and this geometry into columns: refused 1, 17 or 18, or the counts and the
// columns that its log and notes give.
fn fill(volume: &[u8], g: Geometry, c: &mut Columns) -> Result<Counts, Refusal>
    requires volume_value { (known_magic volume.now ≡ true) × (g ≡ geometry_of volume.now) }
    requires blank { c.old ≡ Columns.BLANK }
    ensures { Filled volume.now result c.new }
{
    if !heading::sound(volume, g) {
        return Err(Refusal::BadVolume);
    }
    let v = Volume {
        bytes: volume,
        geometry: g,
    };
    if let Some(told) = fast(&v, c) {
        return told;
    }
    *c = Columns::BLANK;
    slow(&v, c)
}

// The same of any bytes: the heading is compared before a count is read.
fn read(volume: &[u8], c: &mut Columns) -> Result<Counts, Refusal>
    requires { c.old ≡ Columns.BLANK }
    ensures { Filled volume.now result c.new }
{
    if !heading::known(volume) {
        return Err(Refusal::BadVolume);
    }
    fill(volume, heading::geometry(volume), c)
}

// Counts what a scan finds, without the index.
pub fn count(volume: &[u8]) -> Result<Counts, Refusal>
    ensures refusal { error_number result ≡ scan_refusal volume.now }
    ensures counts { IfOk result (λ c. c ≡ counts_of volume.now) }
{
    let mut c = Columns::BLANK;
    read(volume, &mut c)
}

// Scans a volume.
pub fn scan(volume: &[u8]) -> Result<Scanned, Refusal>
    ensures refusal { error_number result ≡ scan_refusal volume.now }
    ensures clean { IfOk result (λ s. s ≡ scanned_of volume.now) }
{
    let mut c = Columns::BLANK;
    let counts = read(volume, &mut c)?;
    Ok(Scanned {
        first: counts.first,
        durable: counts.durable,
        notes: counts.notes,
        index: c.gather(),
    })
}

// Scans a volume with a known heading and this geometry for one page's entry, without an array of all entries.
pub fn seek(volume: &[u8], g: Geometry, page: u32) -> Result<Found, Refusal>
    requires { (known_magic volume.now ≡ true) × (g ≡ geometry_of volume.now) }
    ensures refusal { error_number result ≡ scan_refusal volume.now }
    ensures clean { IfOk result (λ f. f ≡ found_of volume.now page) }
{
    let mut c = Columns::BLANK;
    let counts = fill(volume, g, &mut c)?;
    Ok(Found {
        first: counts.first,
        entry: c.entry(page),
    })
}
