// The index by columns, as a scan fills them: searched for a backup slot, one entry made from it, and all of them. An
// entry is made with a restart's last step: a page with no record in the run stands at its last noted backup.
ghost use Rattle.std.specs.Prelude.{◌≡◌, cond, ◌&&◌, List, map, ◌-◌, ◌≤◌, ◌<◌, eqb, leb};
ghost use Rattle.model.specs.Index.{settled};
ghost use Rattle.model.specs.declared.state.Entry as entries;
ghost use Rattle.index_rows.specs.Columns.{ColumnsOf, Unwritten, column_row, columns_ordered, earlier_row, entered};
ghost use Rattle.index_rows.specs.Columns.{slot_in};

use crate::entries;
use model::state::Entry;

// A column for each field of the entries, of a row for each page.
#[derive(Clone, Copy)]
pub struct Columns {
    pub last: [u32; 64],
    pub written: [u32; 64],
    pub slots: [u8; 64],
    pub backup: [u32; 64],
}

// The slot is in the column: a count in a byte and 64 rows, so that the compiler makes a few wide compares of it.
fn used(slots: &[u8; 64], slot: u32) -> bool
    ensures { result ≡ slot_in slot slots.now }
{
    let mut n: u8 = 0;
    for s in slots {
        n += u8::from(u32::from(*s) == slot);
    }
    n != 0
}

// The slot, if it is one, is in the column: a written note, which names none, takes no search.
pub fn taken(slots: &[u8; 64], slot: u32) -> bool
    ensures { result ≡ (leb 1 slot && slot_in slot slots.now) }
{
    if slot == 0 {
        return false;
    }
    used(slots, slot)
}

// The last number of a page, of its last record in the run (0: none) and its noted backup.
fn standing(last: u32, backup: u32) -> u32
    ensures { result ≡ cond (eqb last 0) backup last }
{
    if last == 0 { backup } else { last }
}

impl Columns {
    // As they are before a scan.
    pub const BLANK: Columns = Columns {
        last: [0; 64],
        written: [0; 64],
        slots: [0; 64],
        backup: [0; 64],
    };

    // The same of these columns.
    pub fn taken(&self, slot: u32) -> bool
        ensures { result ≡ (leb 1 slot && slot_in slot self.now.slots) }
    {
        taken(&self.slots, slot)
    }

    // Row i as earlier notes left it; no note reads or changes the numbers of its records.
    pub fn earlier(&self, i: usize) -> Entry
        requires { i < 64 }
        ensures { result ≡ earlier_row self.now i }
    {
        Entry {
            written: self.written[i],
            slot: self.slots[i],
            backup: self.backup[i],
            ..entries::EMPTY
        }
    }

    // Row i.
    fn row(&self, i: usize) -> Entry
        requires { i < 64 }
        ensures { result ≡ column_row self.now i }
    {
        let n = standing(self.last[i], self.backup[i]);
        Entry {
            last: n,
            durable: n,
            ..self.earlier(i)
        }
    }

    // Row i as a note left it.
    pub fn enter(&mut self, i: usize, e: Entry)
        requires { i < 64 }
        ensures { self.new ≡ entered self.old i e }
    {
        self.written[i] = e.written;
        self.slots[i] = e.slot;
        self.backup[i] = e.backup;
    }

    // A page's entry.
    pub fn entry(&self, page: u32) -> Entry
        ensures { result ≡ column_row self.now (page - 1) }
    {
        if page <= 64 {
            self.row(log_scan::row(page))
        } else {
            entries::EMPTY
        }
    }

    // No page's written number is above its last: rows past the pages, where nothing is written, need not be looked at.
    pub fn ordered(&self, pages: usize) -> bool
        requires { pages ≤ 64 }
        ensures { Unwritten pages self.now.written → result ≡ columns_ordered self.now }
    {
        // a loop: `all` would branch at each row
        let mut sound = true;
        for i in 0..pages {
            let e = self.row(i);
            sound &= e.written <= e.last;
        }
        sound
    }

    // All entries.
    pub fn gather(&self) -> [Entry; 64]
        ensures { (x : List entries.Entry) → ColumnsOf x self.now → result ≡ map settled x }
    {
        // a loop: what `array::from_fn` ensures does not name the columns that its closure reads
        let mut index = [entries::EMPTY; 64];
        for i in 0..64 {
            index[i] = self.row(i);
        }
        index
    }
}
