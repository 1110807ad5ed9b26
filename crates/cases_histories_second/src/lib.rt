// The worked histories of `cases` under the second heading, computed. No code: see proofs/.
#![tactic(auto)]
