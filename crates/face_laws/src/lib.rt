// No code: facts about `face`.
#![tactic(auto)]
