// What C calls is the step of a history: no code.
#![tactic(auto)]
