// How many more notes there is room for.
ghost use Rattle.std.specs.Prelude.{◌≡◌, ◌+◌, ◌≤◌};
ghost use Rattle.reports.specs.Room.{after_notes, notes_left, note_page, note_space};

use model::state::State;
use reports::reading::Space;
use room::notes;
use volume::{Volume, ring};

// The state i notes on.
fn after(s: State, i: u32) -> State
    requires { s.notes + i ≤ 4294967295 }
    ensures { result ≡ after_notes s i }
{
    State {
        notes: s.notes + i,
        ..s
    }
}

// How many notes are stored before the next one is refused; a whole turn at most.
fn count(s: State, v: &Volume<'_>) -> u32
    ensures { (result ≡ notes_left v.now.geometry v.now.bytes.now s) × (s.notes + result ≤ 4294967295) }
{
    let slots = v.geometry.notes;
    for i in 0..slots {
        if notes::full(after(s, i), v) {
            return i;
        }
    }
    slots
}

// The page in the way where the notes are full: that of the note that the next one would displace. 0 where there is
// none, or the last number is given.
fn page(s: State, v: &Volume<'_>) -> u32
    ensures { result ≡ note_page v.now.geometry v.now.bytes.now s }
{
    let last = s.notes;
    let slots = v.geometry.notes;
    let left = (0 < slots) & (last < ring::most_notes(v.geometry));
    if !(left & notes::full(s, v)) {
        return 0;
    }
    u32::from(notes::stored(v, last + 1 - slots).page)
}

// How many more notes, and the page in the way then.
pub fn left(s: State, v: &Volume<'_>) -> Space
    ensures { result ≡ note_space v.now.geometry v.now.bytes.now s }
{
    let count = count(s, v);
    Space {
        count,
        page: page(after(s, count), v),
    }
}
