// What upkeep says.
ghost use Rattle.std.specs.Prelude.{◌≡◌};
ghost use Rattle.face.specs.Advice.{plain, command_numbers, refusal_in, upkeep_numbers};
ghost use Rattle.model.specs.declared.command.Command.TheVariants as commands;

use model::change::Change;
use model::command::Command;
use upkeep_policy::upkeep::Upkeep;

pub fn plain(kind: u32, call: u32, page: u32, place: u32) -> [u32; 8]
    ensures { result ≡ plain kind call page place }
{
    [kind, call, page, place, 0, 0, 0, 0]
}

fn change_numbers(page: u32, c: Change, byte: u32) -> [u32; 8]
    ensures { result ≡ command_numbers (commands.Change page c) byte }
{
    match c {
        Change::Format { .. } => [1, 5, page, 0, 1, 0, 0, byte],
        Change::Put { offset, length } => [
            1,
            5,
            page,
            0,
            2,
            u32::from(length),
            u32::from(offset),
            byte,
        ],
        Change::Slide { offset, length } => [
            1,
            5,
            page,
            0,
            3,
            u32::from(length),
            u32::from(offset),
            byte,
        ],
    }
}

// A call to make; byte is the first of its payload.
pub fn command_numbers(c: Command, byte: u32) -> [u32; 8]
    ensures { result ≡ command_numbers c byte }
{
    match c {
        Command::Begin { page, frame, .. } => plain(1, 3, page, frame),
        Command::Load { page, frame } => plain(1, 4, page, frame),
        Command::Change { page, change } => change_numbers(page, change, byte),
        Command::Force => plain(1, 6, 0, 0),
        Command::Write { page } => plain(1, 7, page, 0),
        Command::Backup { page, slot } => plain(1, 8, page, slot),
        Command::Release { page } => plain(1, 17, page, 0),
        Command::Note => plain(1, 9, 0, 0),
        Command::StartCarry => plain(1, 18, 0, 0),
        Command::Restamp => plain(1, 19, 0, 0),
        Command::FinishCarry => plain(1, 20, 0, 0),
    }
}

pub fn refusal_in(a: Upkeep) -> u32
    ensures { result ≡ refusal_in a }
{
    match a {
        Upkeep::Refused(n) => n,
        _ => 0,
    }
}

pub fn upkeep_numbers(a: Upkeep, byte: u32) -> [u32; 8]
    ensures { result ≡ upkeep_numbers a byte }
{
    match a {
        Upkeep::Refused(_) | Upkeep::Idle => plain(0, 0, 0, 0),
        Upkeep::Stuck(page) => plain(2, 0, page, 0),
        Upkeep::Make(c) => command_numbers(c, byte),
    }
}
