// The worked histories of `cases`, of both headings, which two crates compute. No code: see proofs/.
#![tactic(auto)]
