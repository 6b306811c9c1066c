// No code: definitions (specs/) and their laws (proofs/).
#![tactic(auto)]
