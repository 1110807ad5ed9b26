// The notes: judged one by one, and what they say of each page. A note's kind is a byte of the volume, and any byte is
// judged: it is no enum.
ghost use Rattle.std.specs.Prelude.{◌≡◌, true, ◌||◌, eqb, ltb, IfSome};
ghost use Rattle.model.specs.Scan.{log_record};
ghost use Rattle.index_rows.specs.Columns.{Blank, Noted};
ghost use Rattle.index.specs.NotesPassed.{NotesPassed};
ghost use Rattle.log_scan.specs.LogSection.{log_run};
ghost use Rattle.index.specs.NoteSection.{note_section, note_run, note_after, note_agrees, noted_index, notes_fit};
ghost use Rattle.log_scan.specs.LogSwept.{LogCounts};
ghost use Rattle.index.specs.NotesSwept.{NotesSwept};
ghost use Rattle.section.specs.Sweep.{Guessed};

mod entering;

use codec::field;
use entering::Reach;
use index_rows::columns::Columns;
use index_rows::entries;
use item::note;
use log_scan::{Measured, Swept};
use model::item::Note;
use model::state::Entry;
use section::guess::Guess;
use section::{Extent, Run, Section, guess};
use sums::products;
use volume::{place, ring};

// Where the notes lie.
fn locate<'a>(v: &Measured<'a>) -> Section<'a>
    ensures bytes { result.bytes.now ≡ v.now.bytes.now }
    ensures extent { result.extent ≡ note_section v.now.geometry }
{
    let g = v.geometry;
    Section {
        bytes: v.bytes,
        extent: Extent {
            ring: ring::ring(g),
            at: place::note_at(g, 1),
            size: 12,
            slots: g.notes,
        },
    }
}

// The numbers that the notes hold.
pub fn run(v: &Measured<'_>) -> Run
    ensures { result ≡ note_run v.now.geometry v.now.bytes.now }
{
    locate(v).held()
}

// The page of record n.
fn page(v: &Measured<'_>, n: u32) -> u16
    ensures { result ≡ (log_record v.now.geometry v.now.bytes.now n).page }
{
    field::u16_at(place::record(v.bytes, v.geometry, n), 8)
}

// A note may follow those that gave its page's entry; `used`: its slot is in the index.
fn follows(e: Entry, n: Note, slots: u32, used: bool) -> bool
    ensures { result ≡ note_after e n slots used }
{
    if n.kind == note::WRITTEN {
        return e.written <= n.lsn;
    }
    let slot = u32::from(n.slot);
    (e.backup <= n.lsn) & (((1 <= slot) & (slot <= slots)) & !used)
}

// The note's number is below a log's run from `first` on, where it is not looked up, or that of a record of its page.
fn agrees(v: &Measured<'_>, first: u64, n: Note) -> bool
    ensures { result
        ≡ (ltb n.lsn first || eqb (log_record v.now.geometry v.now.bytes.now n.lsn).page n.page) }
{
    (u64::from(n.lsn) < first) | (page(v, n.lsn) == n.page)
}

// Note k of a volume with these pages and durable records, whole or not, after earlier ones; `named`: it may name its
// record.
fn fits(whole: bool, n: Note, k: u32, pages: u32, durable: u32, named: bool, follows: bool) -> bool
    ensures { result ≡ note_agrees whole n k pages durable named follows }
{
    let own = u32::from(n.page);
    let inside = (1 <= own) & (own <= pages);
    let known = (1 <= n.lsn) & (n.lsn <= durable);
    let right = note::layout(n);
    whole & (right & ((n.number == k) & (inside & (known & (named & follows)))))
}

// Scans the notes after the log's run into the columns that they fill: whether they keep the restart rule, but for what
// is judged at the end.
pub fn scan(v: &Measured<'_>, log: Run, run: Run, c: &mut Columns) -> bool
    requires log_value { log ≡ log_run v.now.geometry v.now.bytes.now }
    requires run_value { run ≡ note_run v.now.geometry v.now.bytes.now }
    requires blank { Blank c.old }
    ensures fit { result ≡ notes_fit v.now.geometry v.now.bytes.now }
    ensures columns { result ≡ true → Noted (noted_index v.now.geometry v.now.bytes.now) c.new }
    ensures last { c.new.last ≡ c.old.last }
{
    let g = v.geometry;
    let s = locate(v);
    let mut slot = section::start(run.first, g.notes);
    for i in 0..section::span(run) {
        let k = section::nth(run.first, i);
        let r = s.item(slot);
        let n = note::read(r);
        let j = log_scan::row(u32::from(n.page));
        let was = c.earlier(j);
        let follows = follows(was, n, g.slots, c.taken(u32::from(n.slot)));
        let named = agrees(v, log.first, n);
        let whole = section::whole(r, 12, slot, run.front);
        if !fits(whole, n, k, g.pages, log.count, named, follows) {
            return false;
        }
        let e = entries::noted(was, n);
        c.enter(j, e);
        slot = section::after(slot, g.notes);
    }
    s.ends(run)
}

// Passes over the notes from a guessed start on, after a log that a sweep found, into the columns, as far as they are
// whole: the number behind the last; none where one does not fit. It goes by place: a step takes no division.
fn pass(v: &Measured<'_>, log: Swept, u: Guess, c: &mut Columns) -> Option<u32>
    requires log_counts { LogCounts v.now.geometry v.now.bytes.now log.first log.next }
    requires guessed { Guessed (note_section v.now.geometry) u }
    requires blank { Blank c.old }
    ensures passed { IfSome result
        (λ next. NotesPassed v.now.geometry v.now.bytes.now u.first next c.new) }
    ensures last { c.new.last ≡ c.old.last }
{
    let g = v.geometry;
    let l = Reach::of(v, log);
    let at = place::note_at(g, 1);
    let stop = at + 16 * (g.notes as usize);
    let past = u.first + g.notes;
    let mut from = at + 16 * (u.slot as usize);
    for n in u.first..past {
        let r = place::array(v.bytes, from);
        if !products::note_holds(r) {
            return Some(n);
        }
        let e = entering::fields(r);
        if !l.belongs(e, n) {
            return None;
        }
        if !entering::enter(c, g.slots, e) {
            return None;
        }
        from = guess::onward(from + 16, at, stop);
    }
    Some(past)
}

// Sweeps the notes after a log that a sweep found, in one pass, into the columns: the number behind the last where
// these are all notes and keep the restart rule, but for what is judged at the end. Else nothing is known of them.
pub fn sweep(v: &Measured<'_>, log: Swept, c: &mut Columns) -> Option<u32>
    requires log_counts { LogCounts v.now.geometry v.now.bytes.now log.first log.next }
    requires blank { Blank c.old }
    ensures swept { IfSome result (λ next. NotesSwept v.now.geometry v.now.bytes.now next c.new) }
    ensures last { c.new.last ≡ c.old.last }
{
    let s = locate(v);
    let u = s.guess_start();
    let next = pass(v, log, u, c)?;
    if !s.closed(u.first, next - u.first) {
        return None;
    }
    Some(next)
}
