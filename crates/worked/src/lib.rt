// No code: tables (specs/) and their proofs (proofs/).
#![tactic(auto)]
