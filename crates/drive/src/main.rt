// Drives the store by a script of cells on standard input, at most 4,096, and prints a line for each: what the call
// answered, and hashes of all that it may have changed. It holds the proved store against an independent
// implementation, so nothing is proved of it but that it is safe and ends.
#![tactic(auto)]

mod calls;

use print::input;
use script::cell::{Cell, Op};
use script::session::{Said, Workspace};
use script::setup;
use script_reports::{advice, archive, forecasts, mirror, rehearse};
use std::io;

// Does what a cell asks for; none: it is skipped.
fn turn(w: &mut Workspace<'_>, c: &Cell) -> Option<Said> {
    Some(match c.op()? {
        Op::Make(heading) => calls::make(w, c, heading),
        Op::Restart => calls::restart(w),
        Op::Call(command) => calls::perform(w, c, command),
        Op::Inspect => calls::inspect(w, c),
        Op::Sizes => setup::sizes(w, c),
        Op::Poke(place) => setup::poke(w, c, place),
        Op::Fill(place) => setup::fill(w, c, place),
        Op::SetState => setup::set(w, c)?,
        Op::Lose => setup::lose(w),
        Op::Second => setup::second(w, c)?,
        Op::Forecast => forecasts::forecast(w),
        Op::Length => archive::length(w),
        Op::Archive => archive::write(w),
        Op::Unarchive => archive::read(w),
        Op::Pages => archive::pages(w),
        Op::Compare => mirror::compare(w),
        Op::Rehearse => rehearse::rehearse(w, c)?,
        Op::Advise => advice::advise(w, c),
    })
}

fn main(rt: HostRuntime) -> io::Result<()> {
    let mut volume = [0u8; 131200];
    let mut memory = [0u8; 5376];
    let mut lent = [0u8; 65920];
    let mut second = [0u8; 131200];
    let mut workspace = Workspace::new(&mut volume, &mut memory, &mut lent, &mut second);
    for _ in 0..4096u32 {
        let mut bytes = [0u8; 64];
        if input::fill(&mut rt.stdin(), &mut bytes)? < 64 {
            return Ok(());
        }
        let said = turn(&mut workspace, &Cell::new(bytes));
        workspace.report(&rt, said)?;
    }
    Ok(())
}
