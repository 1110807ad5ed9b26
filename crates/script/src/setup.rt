// The cells that set up what calls work on, ops 11 to 16, 27 and 28: sizes, bytes and numbers of any kind.
use crate::cell::{Cell, Place};
use crate::numbers;
use crate::session::{self, Said, Workspace};
use store::Store;

// How much of each buffer is lent, at most all of it.
pub fn sizes(w: &mut Workspace<'_>, c: &Cell) -> Said {
    let [lent, ..] = c.counts();
    w.session.volume = w.volume.lend(c.first());
    w.session.memory = w.memory.lend(c.second());
    w.session.lent = w.lent.lend(lent);
    Said::OK
}

// What the second buffer holds for the calls that read it: the volume's lent part, the lent buffer's, or so many of its
// own bytes.
pub fn second(w: &mut Workspace<'_>, c: &Cell) -> Option<Said> {
    w.session.second = match c.kind() {
        0 => w.second.take(w.volume.lent(w.session.volume)),
        1 => w.second.take(w.lent.lent(w.session.lent)),
        2 => w.second.lend(c.first()),
        _ => return None,
    };
    Some(Said::OK)
}

// Writes payload bytes anywhere in a buffer.
pub fn poke(w: &mut Workspace<'_>, c: &Cell, place: Place) -> Said {
    w.at(place).put(c.first() as usize, c.poked());
    Said::OK
}

// Fills a whole buffer with a byte.
pub fn fill(w: &mut Workspace<'_>, c: &Cell, place: Place) -> Said {
    w.at(place).fill(c.kind());
    Said::OK
}

// Sets a number of the state.
pub fn set(w: &mut Workspace<'_>, c: &Cell) -> Option<Said> {
    let state = numbers::set(w.session.store.state, c.first(), c.second())?;
    w.session.store = Store { state };
    Some(Said::OK)
}

// The store as at the start, and a memory of zeros.
pub fn lose(w: &mut Workspace<'_>) -> Said {
    w.memory.fill(0);
    w.session.store = session::empty();
    Said::OK
}
