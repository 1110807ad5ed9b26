// The worked histories of `cases` under the first heading, computed. No code: see proofs/.
#![tactic(auto)]
