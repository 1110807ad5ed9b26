// Answers as the programs print them, and the input that they read.
#![tactic(auto)]

use model::answer::Answer;
use std::fmt;

pub mod input;

// An answer, with a program's words for the two that say no more.
#[derive(Clone, Copy)]
pub struct Worded {
    pub answer: Answer,
    pub nothing: &'static str,
    pub done: &'static str,
}

impl fmt::Display for Worded {
    fn fmt<W: fmt::Write>(&self, f: &mut fmt::Formatter<W>) -> fmt::Result {
        match self.answer {
            Answer::Refused(n) => write!(f, "REFUSED {n}"),
            Answer::Nothing => f.write_str(self.nothing),
            Answer::Done => f.write_str(self.done),
            Answer::Repaired(r) => write!(f, "{r}"),
        }
    }
}
