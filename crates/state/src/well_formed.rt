// Whether a state is well formed (document 01: sound), clause by clause, for any state: no sum of two of its numbers
// wraps.
ghost use Rattle.std.specs.Prelude.{◌≡◌, ◌<◌, ◌||◌, ◌&&◌, leb};
ghost use Rattle.model.specs.Tables.{every};
ghost use Rattle.model.specs.State.{pending_note_fits, entry_zero, well_formed};
ghost use Rattle.state.specs.Clauses.{sole_in, frame_clauses, frame_in};
ghost use Rattle.state.specs.Clauses.{entry_clauses, settled_clauses, page_in, count_clauses};
ghost use Rattle.model.specs.Types.{Some};

use crate::frames;
use item::note;
use model::geometry::Geometry;
use model::item::Note;
use model::state::{Entry, Frame, State};
use volume::ring;

// The note may be the pending one beside the state's counts.
fn note_fits(s: &State, g: Geometry, n: Note) -> bool
    ensures { result ≡ pending_note_fits g s.now.notes s.now.durable (Some n) }
{
    let most = ring::most_notes(g);
    let layout = note::layout(n);
    let number = u64::from(n.number) == u64::from(s.notes) + 1;
    let page = (1 <= n.page) & (u32::from(n.page) <= g.pages);
    let slot = (n.kind == 1) | ((1 <= n.slot) & (u32::from(n.slot) <= g.slots));
    (s.notes < most)
        & ((0 < g.notes) & (layout & (number & (page & (slot & (n.lsn <= s.durable))))))
}

// There is no pending note, or it may be one.
fn pending_fits(s: &State, g: Geometry) -> bool
    ensures { result ≡ pending_note_fits g s.now.notes s.now.durable s.now.note }
{
    s.note.is_none_or(|n| note_fits(s, g, n))
}

// The counts and the pending note are as they may be.
fn counts_fit(s: &State, g: Geometry) -> bool
    ensures { result ≡ count_clauses g s.now.durable s.now.pending s.now.notes s.now.note }
{
    let last = u64::from(s.durable) + u64::from(s.pending);
    let fits = pending_fits(s, g);
    (last <= u64::from(ring::most(g)))
        & ((s.pending <= 16) & ((s.notes <= ring::most_notes(g)) & fits))
}

// Row i is empty, or no row before it holds its page: only a row with a page is compared with those before it.
fn sole(table: &[Frame; 16], i: usize) -> bool
    requires { i < 16 }
    ensures { result ≡ sole_in table.now i }
{
    let page = table[i].page;
    if page == 0 {
        return true;
    }
    table[..i].iter().all(|f| f.page != page)
}

// Frame i, counted from 0, may be so: its row, whether no row before it holds its page, and the page's last number.
fn frame_fits(g: Geometry, count: usize, i: usize, f: Frame, only: bool, last: u32) -> bool
    ensures { result ≡ frame_clauses g count i f only last }
{
    let empty = f.page == 0;
    (u32::from(f.page) <= g.pages)
        & ((empty | only)
            & ((empty | !(last == 0)) & ((!empty | !f.dirty) & ((i < count) | empty))))
}

// Row i of the frames may be so: one that is empty and clean always may.
fn row_fits(s: &State, g: Geometry, count: usize, i: usize) -> bool
    requires { i < 16 }
    ensures { result ≡ frame_in g count s.now.frames s.now.index i }
{
    let f = s.frames[i];
    if (f.page != 0) | f.dirty {
        let k = crate::row(u32::from(f.page));
        let last = if k < 64 { s.index[k].last } else { 0 };
        return frame_fits(g, count, i, f, sole(&s.frames, i), last);
    }
    true
}

// The entry may be that of one of the volume's pages, which is in a frame or not.
fn entry_fits(s: &State, g: Geometry, in_frame: bool, e: Entry) -> bool
    ensures { result ≡ entry_clauses g s.now.durable s.now.pending in_frame e }
{
    let last = u64::from(s.durable) + u64::from(s.pending);
    (u64::from(e.last) <= last)
        & ((e.durable <= e.last)
            & ((e.durable <= s.durable)
                & ((e.written <= e.durable)
                    & ((e.backup <= e.durable)
                        & ((u32::from(e.slot) <= g.slots) & (in_frame | (e.last == e.durable)))))))
}

// The entry is zero, as that of a page past the volume's must be.
fn entry_zero(e: Entry) -> bool
    ensures { result ≡ entry_zero e }
{
    (e.last == 0) & ((e.durable == 0) & ((e.written == 0) & ((e.slot == 0) & (e.backup == 0))))
}

// An entry whose last number is durable may be so: what is left to test of it.
fn settled_fits(s: &State, g: Geometry, e: Entry) -> bool
    ensures { result ≡ settled_clauses g s.now.durable e }
{
    (e.durable <= s.durable)
        & ((e.written <= e.durable) & ((e.backup <= e.durable) & (u32::from(e.slot) <= g.slots)))
}

// The entry of page i + 1 may be so. Only a page that has a pending record is searched for in the frames.
fn page_fits(s: &State, g: Geometry, i: usize) -> bool
    requires { i < 64 }
    ensures { result ≡ page_in g s.now.durable s.now.pending s.now.frames s.now.index i }
{
    let e = s.index[i];
    if g.pages as usize <= i {
        return entry_zero(e);
    }
    if e.last == e.durable {
        return settled_fits(s, g, e);
    }
    let f = frames::search(&s.frames, i as u32 + 1);
    entry_fits(s, g, 0 < f, e)
}

// Row i of the frames, where there is one, and the entry of page i + 1 may be so.
fn both_fit(s: &State, g: Geometry, count: usize, i: usize) -> bool
    requires { i < 64 }
    ensures { result
        ≡ ((leb 16 i || frame_in g count s.now.frames s.now.index i)
        && page_in g s.now.durable s.now.pending s.now.frames s.now.index i) }
{
    (16 <= i || row_fits(s, g, count, i)) && page_fits(s, g, i)
}

// Each row of the frames and each entry may be so. One loop goes through both together.
fn rows_fit(s: &State, g: Geometry, count: usize) -> bool
    ensures { result
        ≡ (every 16 (frame_in g count s.now.frames s.now.index)
        && every 64 (page_in g s.now.durable s.now.pending s.now.frames s.now.index)) }
{
    (0..64).all(|i| both_fit(s, g, count, i))
}

// The state is well formed for the geometry and a number of frames. Its parts are judged where it lies, by a reference:
// by value each function that reads rows by a number would have a copy of the state made for it.
pub fn well_formed(s: State, g: Geometry, count: usize) -> bool
    ensures { result ≡ well_formed g count s }
{
    counts_fit(&s, g) && rows_fit(&s, g, count)
}
