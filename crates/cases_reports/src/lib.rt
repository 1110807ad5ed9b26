// The rows of `cases` on single volumes that are read, computed: report, forecast, archive. No code: see proofs/.
#![tactic(auto)]
