// Facts about the definitions of `reports`, over plain variables. No code: see proofs/.
#![tactic(auto)]
