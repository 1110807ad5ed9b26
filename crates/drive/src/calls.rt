// The cells that call the store, ops 1 to 10 and 17 to 21.
use model::command::Command;
use model::geometry::Heading;
use script::cell::Cell;
use script::session::{Said, Workspace};
use store::{Returned, Store};

// Make under either heading, with the cell's four counts.
pub fn make(w: &mut Workspace<'_>, c: &Cell, heading: Heading) -> Said {
    let [p, b, l, n] = c.counts();
    let volume = w.volume.lent_mut(w.session.volume);
    Said::Answer(match heading {
        Heading::First => Store::make_first(volume, p, b, l, n),
        Heading::Second => Store::make(volume, p, b, l, n),
    })
}

pub fn inspect(w: &mut Workspace<'_>, c: &Cell) -> Said {
    let s = &w.session;
    let volume = w.volume.lent(s.volume);
    Said::Answer(Store::inspect(volume, c.page(), w.lent.lent_mut(s.lent)))
}

// Keeps the store that a call gave back, and tells its answer.
fn told(w: &mut Workspace<'_>, r: Returned) -> Said {
    w.session.store = r.store;
    Said::Answer(r.answer)
}

pub fn restart(w: &mut Workspace<'_>) -> Said {
    let s = &w.session;
    let r = Store::restart(w.volume.lent(s.volume), w.memory.lent_mut(s.memory));
    told(w, r)
}

pub fn perform(w: &mut Workspace<'_>, c: &Cell, command: Command) -> Said {
    let s = &w.session;
    let volume = w.volume.lent_mut(s.volume);
    let memory = w.memory.lent_mut(s.memory);
    let r = s.store.perform(volume, memory, command, c.payload());
    told(w, r)
}
