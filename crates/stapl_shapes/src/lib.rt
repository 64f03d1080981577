//! Which shapes the statements of a program have, how large they are, and how many bytes of text they take at least:
//! definitions and laws.
#![tactic(auto)]

pub mod laws;
