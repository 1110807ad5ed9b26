ghost use Rattle.std.specs.Prelude.{◌≡◌};
ghost use Rattle.model.specs.Refused.{refusal_number};
ghost use Rattle.model.specs.declared.answer.Answer.TheVariants.{Refused};

use crate::state::State;
use std::fmt;

// What a page's own image is worth.
#[derive(Clone, Copy, Debug, PartialEq, Eq)]
pub enum Class {
    Good,
    Behind,
    Stale,
    Failed,
    Ahead,
}

impl fmt::Display for Class {
    fn fmt<W: fmt::Write>(&self, f: &mut fmt::Formatter<W>) -> fmt::Result {
        f.write_str(match self {
            Class::Good => "GOOD",
            Class::Behind => "BEHIND",
            Class::Stale => "STALE",
            Class::Failed => "FAILED",
            Class::Ahead => "AHEAD",
        })
    }
}

// Where a replay starts.
#[derive(Clone, Copy, Debug, PartialEq, Eq)]
pub enum Start {
    Own,
    Backup,
    Format,
}

impl fmt::Display for Start {
    fn fmt<W: fmt::Write>(&self, f: &mut fmt::Formatter<W>) -> fmt::Result {
        f.write_str(match self {
            Start::Own => "OWN",
            Start::Backup => "BACKUP",
            Start::Format => "FORMAT",
        })
    }
}

// Where the chain walk stops: at a start, at a record that breaks the chain, or below the run.
#[derive(Clone, Copy, Debug, PartialEq, Eq)]
pub enum Stop {
    Own,
    Backup,
    Format,
    Broken,
    Below,
}

// How a page was found and repaired: its image's class, the replay's start and the count of records replayed.
#[derive(Clone, Copy)]
pub struct Repair {
    pub class: Class,
    pub start: Start,
    pub count: u32,
}

impl fmt::Display for Repair {
    fn fmt<W: fmt::Write>(&self, f: &mut fmt::Formatter<W>) -> fmt::Result {
        write!(f, "{} {} {}", self.class, self.start, self.count)
    }
}

// The answer of a call. A refusal stands in it by its number, as the definitions' tables give it (`decided`).
#[derive(Clone, Copy)]
pub enum Answer {
    Refused(u32),
    Nothing,
    Done,
    Repaired(Repair),
}

// What a call on the state gives back.
#[derive(Clone, Copy)]
pub struct Reply {
    pub answer: Answer,
    pub state: State,
}

// Why a call is refused, one case for each number of the table in `docs/FORMAT.md`, chapter 6.
#[derive(Clone, Copy, Debug, PartialEq, Eq)]
pub enum Refusal {
    BadVolume = 1,
    BadBuffer = 2,
    NoSuchPage = 3,
    NoSuchFrame = 4,
    NoSuchSlot = 5,
    BadChange = 6,
    BlankPage = 7,
    NoFrame = 8,
    PageInUse = 9,
    ChangePending = 10,
    PendingFull = 11,
    LogFull = 12,
    NotePending = 13,
    NotesFull = 14,
    NotDurable = 15,
    SlotInUse = 16,
    BadLog = 17,
    BadNotes = 18,
    BadRecord = 19,
    OldImage = 20,
    BadLength = 21,
    BadArchive = 22,
    PageLost = 23,
    HistoryLost = 24,
    BadRehearsal = 25,
}

// The refusal's number.
impl From<Refusal> for u32 {
    ghost from_gives = { λ r n. n ≡ refusal_number r };

    fn from(r: Refusal) -> u32 {
        r as u32
    }
}

impl From<Refusal> for Answer {
    ghost from_gives = { λ r a. a ≡ Refused (refusal_number r) };

    fn from(r: Refusal) -> Answer {
        Answer::Refused(u32::from(r))
    }
}
