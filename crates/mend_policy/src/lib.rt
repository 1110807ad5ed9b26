// The declared types of mending, and no code. What each means is defined in specs/.
#![tactic(auto)]

pub mod mending;
