// What upkeep advises, op 31; the cell's frame is the one that is left to it.
use model::answer::Answer;
use model::command::Command;
use script::cell::Cell;
use script::session::{Said, Workspace};
use upkeep_policy::upkeep::Upkeep;

// A call as it is told: its op in a script, its page, its frame or slot, and the first byte that a change puts.
fn call(c: Command, first: u8) -> Said {
    match c {
        Command::Begin { page, frame, .. } => Said::Advice(3, page, frame, 0),
        Command::Load { page, frame } => Said::Advice(4, page, frame, 0),
        Command::Change { page, .. } => Said::Advice(5, page, 0, first),
        Command::Force => Said::Advice(6, 0, 0, 0),
        Command::Write { page } => Said::Advice(7, page, 0, 0),
        Command::Backup { page, slot } => Said::Advice(8, page, slot, 0),
        Command::Note => Said::Advice(9, 0, 0, 0),
        Command::Release { page } => Said::Advice(17, page, 0, 0),
        Command::StartCarry => Said::Advice(18, 0, 0, 0),
        Command::Restamp => Said::Advice(19, 0, 0, 0),
        Command::FinishCarry => Said::Advice(20, 0, 0, 0),
    }
}

pub fn advise(w: &Workspace<'_>, c: &Cell) -> Said {
    let s = &w.session;
    let volume = w.volume.lent(s.volume);
    let advised = upkeep::advise(s.store.state, volume, w.memory.lent(s.memory), c.place());
    match advised.upkeep {
        Upkeep::Refused(n) => Said::Answer(Answer::Refused(n)),
        Upkeep::Idle => Said::Idle,
        Upkeep::Stuck(page) => Said::Number("STUCK", page),
        Upkeep::Make(command) => call(command, advised.payload[0]),
    }
}
