// No code: what is proved of upkeep (proofs/), and its worked rows (specs/).
#![tactic(auto)]
