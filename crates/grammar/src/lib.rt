// What document 02, L6, says of notes of passes, as definitions (specs/) and theorems (proofs/). This crate has no code.
#![tactic(auto)]
