// The definitions of document 01 (specs/) and the theorems about them (proofs/). No code: the crates above cite both.
#![tactic(auto)]
