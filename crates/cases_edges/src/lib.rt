// No code: claims at their bounds that stand beside those of `instances` and `bounds` (proofs/).
#![tactic(auto)]
