// Inspection with its report: class, start and count.
#![tactic(auto)]

pub mod examine;
