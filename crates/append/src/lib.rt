// Begin and Change: the calls that append a log record.
#![tactic(auto)]

pub mod begin;
pub mod change;
mod limits;
mod pending;
