// The note positions: position i is the note that the i-th next one displaces. One pass over the notes tells which of
// positions 1 and 2 is the first that is needed, and so whether the notes are full.
ghost use Rattle.std.specs.Prelude.{◌≡◌, true, ◌&&◌, eqb, ◌+◌, ◌-◌, ◌≤◌, ◌<◌, MatchOption};
ghost use Rattle.model.specs.Geometry.{ring};
ghost use Rattle.model.specs.Scan.{note_record};
ghost use Rattle.model.specs.State.{note_needed, notes_full};
ghost use Rattle.upkeep_policy.specs.Upkeep.{note_position, note_ahead, first_needed_note};
ghost use Rattle.upkeep.specs.Parts.{FirstNote};

use item::note;
use model::item::Note;
use model::state::State;
use room::notes;
use sums::check::Check;
use sums::checksum::WordSum;
use volume::{Volume, place, ring};

// Whether the note is needed that the next one displaces, and the one that the note after that displaces: each may be
// so without the other, so that these are two flags and no Option.
#[derive(Clone, Copy)]
pub struct Oldest {
    pub first: bool,
    pub second: bool,
}

// Two notes are of one page and kind.
fn like(a: Note, b: Note) -> bool
    ensures { result ≡ (eqb a.page b.page && eqb a.kind b.kind) }
{
    (a.page == b.page) & (a.kind == b.kind)
}

// The one pass: notes j - 1 and j, of k, against the notes after them, until neither is needed. The turns are counted,
// and not the numbers: k may be the last number, which no range can end behind.
fn pass(v: &Volume<'_>, k: u32, j: u32) -> Oldest
    requires { (1 ≤ v.now.geometry.notes) × (1 ≤ j) × (j ≤ k) }
    ensures { (result.first ≡ note_needed v.now.geometry v.now.bytes.now k (j - 1))
        × (result.second ≡ note_needed v.now.geometry v.now.bytes.now k j) }
{
    let a = notes::stored(v, j - 1);
    let b = notes::stored(v, j);
    let mut second = notes::whole(v, j);
    let mut first = notes::whole(v, j - 1) & !(second & like(b, a));
    for i in 0..k - j {
        if !(first | second) {
            return Oldest { first, second };
        }
        let n = j + i + 1;
        let e = notes::stored(v, n);
        let whole = notes::whole(v, n);
        first = first & !(whole & like(e, a));
        second = second & !(whole & like(e, b));
    }
    Oldest { first, second }
}

// With one slot: note k, and, since the next note is in its own way, note k + 1.
fn only(v: &Volume<'_>, k: u32) -> Oldest
    requires { v.now.geometry.notes ≡ 1 }
    ensures { (result.first ≡ note_needed v.now.geometry v.now.bytes.now k k)
        × (result.second ≡ note_needed v.now.geometry v.now.bytes.now k (k + 1)) }
{
    let r = v.note(1);
    let e = note::read(r);
    let whole = WordSum::holds(r, 12);
    Oldest {
        first: whole & (e.number == k),
        second: whole & (u64::from(e.number) == u64::from(k) + 1),
    }
}

// The notes of positions 1 and 2, of k, where position 2 has a number.
fn positions(v: &Volume<'_>, k: u32) -> Oldest
    requires { (1 ≤ v.now.geometry.notes) × (v.now.geometry.notes < k + 2) }
    ensures { (result.first ≡ note_needed v.now.geometry v.now.bytes.now k (k + 1 - v.now.geometry.notes))
        × (result.second ≡ note_needed v.now.geometry v.now.bytes.now k (k + 2 - v.now.geometry.notes)) }
{
    let slots = v.geometry.notes;
    if slots == 1 {
        return only(v, k);
    }
    pass(v, k, k - (slots - 2))
}

// The first of note positions 1 and 2 that is needed; None, for which the definition has 3, where none is.
pub fn first(s: State, v: &Volume<'_>) -> Option<u32>
    ensures { FirstNote result v.now.geometry v.now.bytes.now s }
{
    let k = u64::from(s.notes);
    let slots = u64::from(v.geometry.notes);
    if (slots == 0) | (k + 2 <= slots) {
        return None;
    }
    let x = positions(v, s.notes);
    if (slots <= k) & x.first {
        return Some(1);
    }
    if x.second {
        return Some(2);
    }
    None
}

// The notes are full: no slot, or the last number is given, or position 1 is needed, which the first needed tells.
pub fn full(s: State, v: &Volume<'_>, first: Option<u32>) -> bool
    requires ring { ring v.now.geometry ≡ true }
    requires first { FirstNote first v.now.geometry v.now.bytes.now s }
    ensures { result ≡ notes_full v.now.geometry v.now.bytes.now s }
{
    let g = v.geometry;
    (g.notes == 0) | ((ring::most_notes(g) <= s.notes) | (first == Some(1)))
}

// The note at a position that is needed.
pub fn at(s: State, v: &Volume<'_>, i: u32) -> Note
    requires { (1 ≤ i) × (note_ahead v.now.geometry v.now.bytes.now s i ≡ true) }
    ensures { result ≡ note_record v.now.geometry v.now.bytes.now (note_position v.now.geometry s i) }
{
    let slots = u64::from(v.geometry.notes);
    let number = u64::from(s.notes) + u64::from(i);
    let n = (number - slots - 1) % slots;
    note::read(place::part(v.bytes, place::note_at(v.geometry, n as u32 + 1), 16))
}
