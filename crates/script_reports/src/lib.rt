// The cells of a script that leave volume, memory and state as they are: the reports on the lent volume and the second
// buffer, and what upkeep advises. As of `script`, nothing is proved of them but that they are safe and end.
#![tactic(auto)]

pub mod advice;
pub mod archive;
pub mod forecasts;
pub mod mirror;
pub mod rehearse;
