// The figures of the pages: rows read and set, what one more store or load makes of a row, and the sum of all.
ghost use Rattle.std.specs.Prelude.{◌≡◌, ℕ, suc, ◌-◌, ◌≤◌};
ghost use Rattle.planning.specs.Rehearsal.{page_row, set_row, with_load, with_image, with_change, plus, total_of};
ghost use Rattle.planning_model.specs.Bounds.{Small, Sums};

use planning::rehearsal::{Figures, Totals};

// A page without figures.
pub const NONE: Figures = Figures {
    loads: 0,
    records: 0,
    images: 0,
    backups: 0,
    notes: 0,
    replayed: 0,
};

// A page's row, counted from 0; page 0 counts as 1.
fn row(page: u32) -> usize
    ensures { result ≡ page - 1 }
{
    page.saturating_sub(1) as usize
}

// A page's figures; none past the last row.
pub fn page_row(pages: [Figures; 64], page: u32) -> Figures
    ensures { result ≡ page_row pages page }
{
    let i = row(page);
    if i < 64 { pages[i] } else { NONE }
}

// The figures with another row for a page.
pub fn set_row(pages: [Figures; 64], page: u32, r: Figures) -> [Figures; 64]
    ensures { result ≡ set_row pages page r }
{
    let i = row(page);
    let mut next = pages;
    if i < 64 {
        next[i] = r;
    }
    next
}

// One load more, with so many records replayed.
pub fn with_load(r: Figures, count: u32) -> Figures
    requires { Small 1000000 r × (count ≤ 1000000) }
    ensures { result ≡ with_load r count }
{
    Figures {
        loads: r.loads + 1,
        replayed: r.replayed + count,
        ..r
    }
}

// One page image more, and its note.
pub fn with_image(r: Figures) -> Figures
    requires { Small 1000000 r }
    ensures { result ≡ with_image r }
{
    Figures {
        images: r.images + 1,
        notes: r.notes + 1,
        ..r
    }
}

// One change more: a log record and, where it is one in so many, a backup image and its note.
pub fn with_change(r: Figures, every: u32) -> Figures
    requires { Small 1000000 r × (1 ≤ every) }
    ensures { result ≡ with_change every r }
{
    let n = r.records + 1;
    if n % every != 0 {
        return Figures { records: n, ..r };
    }
    let notes = r.notes + 1;
    Figures {
        records: n,
        backups: r.backups + 1,
        notes,
        ..r
    }
}

// A total with one row more.
fn add(a: Totals, r: Figures) -> Totals
    requires { Sums 63 a }
    ensures { (result ≡ plus a r) × ((n : ℕ) → Sums n a → Sums (suc n) result) }
{
    Totals {
        loads: a.loads + u64::from(r.loads),
        records: a.records + u64::from(r.records),
        images: a.images + u64::from(r.images),
        backups: a.backups + u64::from(r.backups),
        notes: a.notes + u64::from(r.notes),
        replayed: a.replayed + u64::from(r.replayed),
    }
}

// The sum of all rows.
// Ruled out: a page's row left out (tried); one sort of store added to another.
pub fn total(pages: [Figures; 64]) -> Totals
    ensures { result ≡ total_of pages 64 }
{
    let mut sum = Totals {
        loads: 0,
        records: 0,
        images: 0,
        backups: 0,
        notes: 0,
        replayed: 0,
    };
    for &r in &pages {
        sum = add(sum, r);
    }
    sum
}
