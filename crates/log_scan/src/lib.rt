// The scan of the log: its records judged one by one, and the last number of each page.
#![tactic(auto)]

ghost use Rattle.std.specs.Prelude.{◌≡◌, true, length, replicate, IfSome};
ghost use Rattle.model.specs.Item.{record_of};
ghost use Rattle.model.specs.Scan as scans;
ghost use Rattle.section.specs.Sweep.{Guessed};
ghost use Rattle.log_scan.specs.LogPassed.{LogPassed, right_of, links_to};
ghost use Rattle.log_scan.specs.LogSection.{Sized, log_section, log_run, record_follows};
ghost use Rattle.log_scan.specs.LogSwept.{LogSwept};
ghost use Rattle.log_scan.specs.Rows.{row_of, lasts};

use codec::field;
use item::change::FORMAT;
use item::record;
use model::geometry::Geometry;
use model::item::LogRecord;
use section::guess::Guess;
use section::{Extent, Run, Section, guess};
use sums::products;
use volume::{Volume, place, ring};

// What a scan asks of a volume: counts in range and a length by them. A valid volume has both; its heading is not asked,
// nor that the counts are those that the bytes give.
#[derive(Clone, Copy)]
pub struct Measured<'a> {
    pub bytes: &'a [u8],
    pub geometry: Geometry,
    pub ghost sized: { Sized geometry bytes.now },
}

impl<'a> Measured<'a> {
    // A valid volume is measured.
    pub fn of(v: &Volume<'a>) -> Measured<'a>
        ensures bytes { result.bytes.now ≡ v.now.bytes.now }
        ensures geometry { result.geometry ≡ v.now.geometry }
    {
        Measured {
            bytes: v.bytes,
            geometry: v.geometry,
        }
    }
}

// The log of a volume. (The notes' differs in start, size and count: a shared function would take all three.)
fn locate<'a>(v: &Measured<'a>) -> Section<'a>
    ensures bytes { result.bytes.now ≡ v.now.bytes.now }
    ensures extent { result.extent ≡ log_section v.now.geometry }
{
    let g = v.geometry;
    Section {
        bytes: v.bytes,
        extent: Extent {
            ring: ring::ring(g),
            at: place::record_at(g, 1),
            size: 60,
            slots: g.records,
        },
    }
}

// The run start, with n records.
pub fn first(v: &Measured<'_>, n: u32) -> u64
    ensures { result ≡ scans.first_held v.now.geometry v.now.bytes.now n }
{
    locate(v).first(n, 0)
}

// The numbers that the log holds.
pub fn run(v: &Measured<'_>) -> Run
    ensures { result ≡ log_run v.now.geometry v.now.bytes.now }
{
    locate(v).held()
}

// A page's row, counted from 0; row 0 for a page that has none.
pub fn row(page: u32) -> usize
    ensures { result ≡ row_of page }
{
    if page <= 64 {
        page.saturating_sub(1) as usize
    } else {
        0
    }
}

// Record n of a volume with these pages, whole and of a right layout or not, of a page whose last earlier record in the
// run is `last`. Numbers up to `below` are below the run, and are not looked up.
fn fits(whole: bool, layout: bool, e: LogRecord, pages: u32, below: u64, last: u32, n: u32) -> bool
    ensures { result ≡ record_follows whole layout e pages below last n }
{
    let page = u32::from(e.page);
    let prev = u64::from(e.prev);
    let inside = (1 <= page) & (page <= pages);
    let earlier = (last == 0) & ((1 <= prev) & (prev <= below));
    let linked = ((e.prev == last) | earlier) & ((u32::from(e.kind) == FORMAT) | (1 <= e.prev));
    whole & (layout & ((e.lsn == n) & (inside & linked)))
}

// Scans the log into the column of last numbers: whether it keeps the restart rule.
pub fn scan(v: &Measured<'_>, run: Run, last: &mut [u32; 64]) -> bool
    requires run_value { run ≡ log_run v.now.geometry v.now.bytes.now }
    requires last_value { last.old ≡ replicate 64 0 }
    ensures valid { result ≡ scans.valid_log v.now.geometry v.now.bytes.now }
    ensures last { result ≡ true → last.new ≡ lasts (scans.indexed_run v.now.geometry v.now.bytes.now) }
{
    let below = run.first - 1;
    let pages = v.geometry.pages;
    let slots = v.geometry.records;
    let log = locate(v);
    let span = section::span(run);
    let mut slot = section::start(run.first, slots);
    for i in 0..span {
        let n = section::nth(run.first, i);
        let r = log.item(slot);
        let e = record::read(r);
        let k = row(u32::from(e.page));
        let was = last[k];
        let whole = section::whole(r, 60, slot, run.front);
        if !fits(whole, record::layout(r), e, pages, below, was, n) {
            return false;
        }
        last[k] = n;
        slot = section::after(slot, slots);
    }
    log.ends(run)
}

// The page and the kind of a record, which are in one word.
fn named(r: &[u8]) -> (u32, u32)
    requires { length r.now ≡ 64 }
    ensures { (result.0 ≡ (record_of r.now).page) × (result.1 ≡ (record_of r.now).kind) }
{
    let word = field::four(r, 8);
    (word % 65536, word / 65536 % 256)
}

// A record has number n, a page in range and a right layout.
fn right(r: &[u8], n: u32, page: u32, pages: u32) -> bool
    requires { length r.now ≡ 64 }
    ensures { result ≡ right_of r.now n page pages }
{
    let here = (field::four(r, 0) == n) & ((1 <= page) & (page <= pages));
    here && record::laid_out(r)
}

// A record of this kind names its page's last earlier one in the run, or, where there is none, one below the run; and
// only a format names none.
fn links(prev: u32, last: u32, below: u32, kind: u32) -> bool
    ensures { result ≡ links_to prev last below kind }
{
    if prev != last {
        return (last == 0) & ((1 <= prev) & (prev <= below));
    }
    prev != 0 || kind == FORMAT
}

// The records from a guessed slot on, each whole, right and of the number that follows, into the column of last
// numbers: sum and fields in one pass. The number at which it stopped, since the slot there is not whole, or there is
// none; nothing where another test failed. It goes by place and number: a step takes no product.
fn pass(v: &Measured<'_>, u: Guess, last: &mut [u32; 64]) -> Option<u32>
    requires guessed { Guessed (log_section v.now.geometry) u }
    requires last_value { last.old ≡ replicate 64 0 }
    ensures { IfSome result (λ next. LogPassed v.now.geometry v.now.bytes.now u.first next last.new) }
{
    let bytes = v.bytes;
    let g = v.geometry;
    let at = place::record_at(g, 1);
    let stop = at + 64 * (g.records as usize);
    let below = u.first - 1;
    let past = u.first + g.records;
    let mut from = at + 64 * (u.slot as usize);
    for n in u.first..past {
        let end = from + 64;
        let r = &bytes[from..end];
        if !products::record_holds(r) {
            return Some(n);
        }
        let (page, kind) = named(r);
        if !right(r, n, page, g.pages) {
            return None;
        }
        let k = (page - 1) as usize;
        if !links(field::four(r, 4), last[k], below, kind) {
            return None;
        }
        last[k] = n;
        from = guess::onward(end, at, stop);
    }
    Some(past)
}

// What a sweep finds: the number that it starts with, and the one behind its last.
#[derive(Clone, Copy)]
pub struct Swept {
    pub first: u32,
    pub next: u32,
}

// Reads the log in one pass into the column of last numbers, from where its run is guessed to start. Where it gives
// nothing, nothing is known of the log.
pub fn sweep(v: &Measured<'_>, last: &mut [u32; 64]) -> Option<Swept>
    requires { last.old ≡ replicate 64 0 }
    ensures { IfSome result (λ s. LogSwept v.now.geometry v.now.bytes.now s.first s.next last.new) }
{
    let log = locate(v);
    let u = log.guess_start();
    let next = pass(v, u, last)?;
    if !log.closed(u.first, next - u.first) {
        return None;
    }
    Some(Swept {
        first: u.first,
        next,
    })
}
