// The rows of `cases` on two logs held against each other, computed. No code: see proofs/.
#![tactic(auto)]
