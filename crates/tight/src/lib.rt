// That the bound of request L8 is tight, Theorem 8 of document 000, as a definition (specs/) and theorems (proofs/). This crate has no code.
#![tactic(auto)]
