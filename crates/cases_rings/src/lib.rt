// The rows of `cases` on the log and the notes as rings, computed. No code: see proofs/.
#![tactic(auto)]
