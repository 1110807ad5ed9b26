// The claims of `model` at their bounds: each theorem where a hypothesis only just holds, and what follows. No code: see proofs/.
#![tactic(auto)]
