// Whether the log, and the notes, have room for one more: rows 12 and 14. In a ring the next item displaces the oldest
// one, which must be known to be spare.
#![tactic(auto)]

pub mod log;
pub mod notes;
