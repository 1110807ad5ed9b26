// The promise for a C caller: definitions and the claim, no code.
#![tactic(auto)]
