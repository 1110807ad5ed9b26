// No code: worked rows of upkeep, computed (specs/).
#![tactic(auto)]
