// Worked rows of mending, computed: no code.
#![tactic(auto)]
