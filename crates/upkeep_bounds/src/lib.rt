// No code: upkeep's promise at a history of two pages that meets its hypotheses at their bounds (proofs/).
#![tactic(auto)]
