// One note of a pass: its fields, the record that it names, and its entry in the columns. A leaf of its own for each,
// so that the compiler expands them in the loop.
ghost use Rattle.std.specs.Prelude.{◌≡◌, true, ◌+◌, ◌-◌, ◌*◌, ◌%◌, ◌≤◌, ◌<◌, length, get_or, set};
ghost use Rattle.model.specs.Geometry.{record_at, log_slot, start};
ghost use Rattle.model.specs.Item.{note_of};
ghost use Rattle.index.specs.NotesPassed.{Names, Belongs, Follows, BackedUp, with_entered};
ghost use Rattle.log_scan.specs.LogSwept.{LogCounts};

use codec::field;
use index_rows::columns::Columns;
use item::note;
use log_scan::{Measured, Swept};
use model::item::Note;
use volume::place;

// Where the log's run lies, for a pass over the notes: its first number and where that is, the number behind its last,
// and where the log's slots start and end.
#[derive(Clone, Copy)]
pub struct Reach<'a> {
    pub volume: Measured<'a>,
    pub first: u32,
    pub next: u32,
    pub from: usize,
    pub at: usize,
    pub stop: usize,
    pub ghost counts: { LogCounts volume.geometry volume.bytes.now first next },
    pub ghost at_is: { at ≡ start volume.geometry (record_at 1) },
    pub ghost stop_is: { stop ≡ at + 64 * volume.geometry.records },
    pub ghost from_is: { from ≡ at + 64 * ((first - 1) % volume.geometry.records) },
}

impl<'a> Reach<'a> {
    // The place of the log's run is computed once, so that no note takes a division.
    pub fn of(v: &Measured<'a>, log: Swept) -> Reach<'a>
        requires { LogCounts v.now.geometry v.now.bytes.now log.first log.next }
        ensures { result.volume ≡ v.now }
    {
        let g = v.geometry;
        let at = place::record_at(g, 1);
        let slot = section::start(u64::from(log.first), g.records);
        Reach {
            volume: *v,
            first: log.first,
            next: log.next,
            from: at + 64 * (slot as usize),
            at,
            stop: at + 64 * (g.records as usize),
        }
    }

    // Where record n of the run is.
    fn near(&self, n: u32) -> usize
        requires { (self.now.first ≤ n) × (n < self.now.next) }
        ensures { result ≡ start self.now.volume.geometry (log_slot self.now.volume.geometry n) }
    {
        let k = self.from + 64 * ((n - self.first) as usize);
        if k < self.stop {
            k
        } else {
            k - (self.stop - self.at)
        }
    }

    // The note names a durable record, of its page where that is in the log's run.
    fn names(&self, e: Note) -> bool
        ensures { result ≡ true → Names self.now.volume.geometry self.now.volume.bytes.now e }
    {
        let n = e.lsn;
        if self.next <= n {
            return false;
        }
        if n < self.first {
            return 1 <= n;
        }
        let r: &[u8; 64] = place::array(self.volume.bytes, self.near(n));
        field::two(r, 8) == e.page
    }

    // The note has its place's number, a page in range, and names a durable record, of its page where that is in the
    // log's run.
    pub fn belongs(&self, e: Note, n: u32) -> bool
        ensures { result ≡ true → Belongs self.now.volume.geometry self.now.volume.bytes.now e n }
    {
        let page = u32::from(e.page);
        let pages = self.volume.geometry.pages;
        if (e.number != n) | ((page == 0) | (pages < page)) {
            return false;
        }
        self.names(e)
    }
}

// A note's fields, of three numbers.
pub fn fields(r: &[u8; 16]) -> Note
    ensures { result ≡ note_of r.now }
{
    let v = field::four(r, 4);
    Note {
        number: field::four(r, 0),
        page: (v % 65536) as u16,
        kind: (v / 65536 % 256) as u8,
        slot: (v / 16777216) as u8,
        lsn: field::four(r, 8),
    }
}

// Enters a written note in row j: it names no slot, and is not below the last.
fn write(c: &mut Columns, j: usize, e: Note) -> bool
    requires { j < 64 }
    ensures entered { result ≡ true → (e.slot ≡ 0) × (get_or c.old.written j 0 ≤ e.lsn)
        × (c.new ≡ record c.old { written = set c.old.written j e.lsn }) }
    ensures last { c.new.last ≡ c.old.last }
{
    if (e.slot != 0) | (e.lsn < c.written[j]) {
        return false;
    }
    c.written[j] = e.lsn;
    true
}

// Enters the note of a backup in row j: it is not below the last, and its slot, of so many, is not in the column.
fn back_up(c: &mut Columns, most: u32, j: usize, e: Note) -> bool
    requires { j < 64 }
    ensures entered { result ≡ true → BackedUp most j e.slot e.lsn c.old c.new }
    ensures last { c.new.last ≡ c.old.last }
{
    let k = u32::from(e.slot);
    if (e.lsn < c.backup[j]) | ((k == 0) | (most < k)) {
        return false;
    }
    if c.taken(k) {
        return false;
    }
    c.slots[j] = e.slot;
    c.backup[j] = e.lsn;
    true
}

// Enters a note in the columns, if it may follow those that gave them.
pub fn enter(c: &mut Columns, most: u32, e: Note) -> bool
    requires { (1 ≤ e.page) × (e.page ≤ 64) }
    ensures follows { result ≡ true → Follows e most c.old }
    ensures enters { result ≡ true → c.new ≡ with_entered c.old e }
    ensures last { c.new.last ≡ c.old.last }
{
    let j = usize::from(e.page) - 1;
    if e.kind == note::WRITTEN {
        return write(c, j, e);
    }
    if e.kind != note::BACKED_UP {
        return false;
    }
    back_up(c, most, j, e)
}
