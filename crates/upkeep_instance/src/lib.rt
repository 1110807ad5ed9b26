// What upkeep promises, applied to histories that meet its bounds exactly; and one slot below them. No code: see proofs/.
#![tactic(auto)]
