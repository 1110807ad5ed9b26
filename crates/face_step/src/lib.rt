// The step that every call on the state makes for C, and what it finds before and tells after the call.
#![tactic(auto)]

pub mod range;
pub mod report;
pub mod step;
pub mod touched;
