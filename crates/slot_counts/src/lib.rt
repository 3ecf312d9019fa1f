// The least slot count of a disk, request L10, as definitions (specs/) and theorems (proofs/). This crate has no code.
#![tactic(auto)]
