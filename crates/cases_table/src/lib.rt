// The whole table of `cases`, of the parts that other crates compute. No code: see proofs/.
#![tactic(auto)]
