// Mending's theorems applied where they only just hold: no code.
#![tactic(auto)]
