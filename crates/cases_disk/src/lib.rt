// The rows of `cases` on what stands on disk, computed: layouts, sums, changes, K1 to K12, the rules. No code.
#![tactic(auto)]
