// The rows of `cases` on rehearsals, computed, the real calls beside the model. No code: see proofs/.
#![tactic(auto)]
