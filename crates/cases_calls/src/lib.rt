// The rows of `cases` on calls, computed: states, refusals, which events may come, the traps. No code: see proofs/.
#![tactic(auto)]
