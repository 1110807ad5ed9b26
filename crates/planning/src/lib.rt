// The declared types of the planning model, and no code. What each means is defined in specs/.
#![tactic(auto)]

pub mod rehearsal;
