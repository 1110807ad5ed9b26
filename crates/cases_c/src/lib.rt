// No code: rows on what the functions for C leave, computed (specs/), and what a report says (proofs/).
#![tactic(auto)]
