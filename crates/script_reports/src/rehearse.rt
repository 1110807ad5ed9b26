// The rehearsal of the second buffer's events, op 30: a hash of six figures for each of 64 pages.
use model::answer::Answer;
use planning::rehearsal::{Figures, Victim};
use script::cell::Cell;
use script::hash;
use script::session::{Said, Workspace};

// Loads, then stores by sort, then log records replayed.
fn figures(h: u32, f: &Figures) -> u32 {
    hash::steps(
        h,
        [f.loads, f.records, f.images, f.backups, f.notes, f.replayed],
    )
}

// The cell's kind tells what is done with a dirty victim: 0 written, 1 let go.
fn victim(kind: u8) -> Option<Victim> {
    match kind {
        0 => Some(Victim::Written),
        1 => Some(Victim::Released),
        _ => None,
    }
}

pub fn rehearse(w: &Workspace<'_>, c: &Cell) -> Option<Said> {
    let victim = victim(c.kind())?;
    let events = w.second.lent(w.session.second);
    let r = planning_model::rehearse(events, c.page(), c.first(), victim);
    Some(match r.answer {
        Answer::Refused(_) => Said::Answer(r.answer),
        _ => Said::Number("REHEARSED", r.pages.iter().fold(hash::START, figures)),
    })
}
