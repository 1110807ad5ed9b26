// The rows of the page recovery index: read, searched for a backup slot, and a note entered.
ghost use Rattle.std.specs.Prelude.{◌≡◌, ◌≤◌};
ghost use Rattle.model.specs.Index.{entry_of, with_note, enter_note, slot_used};

use model::item::Note;
use model::state::Entry;

// A page without records and notes.
pub const EMPTY: Entry = Entry {
    last: 0,
    durable: 0,
    written: 0,
    slot: 0,
    backup: 0,
};

// A page's entry.
pub fn entry(index: [Entry; 64], page: u32) -> Entry
    ensures { result ≡ entry_of index page }
{
    if page <= 64 {
        index[log_scan::row(page)]
    } else {
        EMPTY
    }
}

// The slot is in the index.
pub fn used(index: [Entry; 64], slot: u32) -> bool
    ensures { result ≡ slot_used slot index }
{
    index.iter().any(|e| u32::from(e.slot) == slot)
}

// An entry with a note entered. A kind is a byte of the volume, and any byte is taken: it is no enum.
pub fn noted(e: Entry, n: Note) -> Entry
    ensures { result ≡ with_note e n }
{
    if n.kind == 1 {
        Entry {
            written: n.lsn,
            ..e
        }
    } else {
        Entry {
            slot: n.slot,
            backup: n.lsn,
            ..e
        }
    }
}

// The index with a note entered.
pub fn enter(mut index: [Entry; 64], n: Note) -> [Entry; 64]
    requires { (1 ≤ n.page) × (n.page ≤ 64) }
    ensures { result ≡ enter_note index n }
{
    let i = log_scan::row(u32::from(n.page));
    index[i] = noted(index[i], n);
    index
}
