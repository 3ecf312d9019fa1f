// What document 01 says, as definitions (specs/) and theorems (proofs/). This crate has no code.
#![tactic(auto)]
