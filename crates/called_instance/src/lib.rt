// The claims for C, each applied to a legal history where its hypotheses only just hold. No code: see proofs/.
#![tactic(auto)]
