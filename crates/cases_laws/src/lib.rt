// What a computed test shows of a worked history of `cases`: one law. No code: see proofs/.
#![tactic(auto)]
