// The declared types of upkeep, and no code. What each means is defined in specs/.
#![tactic(auto)]

pub mod upkeep;
