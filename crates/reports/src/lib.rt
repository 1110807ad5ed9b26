// The declared types of the reports, and no code: what the calls that read volumes and take no state give back. What
// each means is defined in specs/.
#![tactic(auto)]

pub mod reading;
