// The rows and histories of `cases` on a volume that is carried over, computed. No code: see proofs/.
#![tactic(auto)]
