// What the reports tell after any history. No code: see proofs/.
#![tactic(auto)]
