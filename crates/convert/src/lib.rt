// Start, Restamp and Finish: the calls that carry a volume over from the first heading to the second.
#![tactic(auto)]

pub mod failing;
pub mod finish;
mod heading;
pub mod images;
mod passes;
pub mod restamp;
pub mod start;
