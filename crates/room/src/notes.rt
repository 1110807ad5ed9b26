// Whether there is room for one more note. In a ring the next note displaces the oldest one, which must be known to be
// spare.
ghost use Rattle.std.specs.Prelude.{◌≡◌, true, ◌+◌, ◌≤◌};
ghost use Rattle.model.specs.Scan.{note_record};
ghost use Rattle.model.specs.State.{note_whole, note_like, note_needed, notes_full};

use item::note;
use model::item::Note;
use model::state::State;
use sums::check::Check;
use sums::checksum::WordSum;
use volume::{Volume, ring};

// The note in the slot of number n.
pub fn stored(v: &Volume<'_>, n: u32) -> Note
    requires { 1 ≤ v.now.geometry.notes }
    ensures { result ≡ note_record v.now.geometry v.now.bytes.now n }
{
    note::read(v.note(n))
}

// Note n stands whole in its slot.
pub fn whole(v: &Volume<'_>, n: u32) -> bool
    requires { 1 ≤ v.now.geometry.notes }
    ensures { result ≡ note_whole v.now.geometry v.now.bytes.now n }
{
    let r = v.note(n);
    let e = note::read(r);
    WordSum::holds(r, 12) & (e.number == n)
}

// Note i has the page and the kind of note j.
fn like(v: &Volume<'_>, j: u32, i: u32) -> bool
    requires { 1 ≤ v.now.geometry.notes }
    ensures { result ≡ note_like v.now.geometry v.now.bytes.now j i }
{
    let a = stored(v, i);
    let b = stored(v, j);
    (a.page == b.page) & (a.kind == b.kind)
}

// Note j, of k, is not known to be spare: it stands whole, and no later one of its page and kind does.
fn needed(v: &Volume<'_>, k: u32, j: u32) -> bool
    requires { (1 ≤ v.now.geometry.notes) × (j ≤ k) }
    ensures { result ≡ note_needed v.now.geometry v.now.bytes.now k j }
{
    if !whole(v, j) {
        return false;
    }
    for i in 0..k - j {
        let n = j + i + 1;
        if whole(v, n) & like(v, j, n) {
            return false;
        }
    }
    true
}

// There is no note slot; or the last number is given; or, in a ring, the note that the next one would displace is
// needed.
pub fn full(s: State, v: &Volume<'_>) -> bool
    ensures { result ≡ notes_full v.now.geometry v.now.bytes.now s }
{
    let last = s.notes;
    let slots = v.geometry.notes;
    if (slots == 0) | (ring::most_notes(v.geometry) <= last) {
        return true;
    }
    if !ring::ring(v.geometry) | (last < slots) {
        return false;
    }
    needed(v, last, last + 1 - slots)
}
