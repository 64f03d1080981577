//! Canonical program text: definitions and laws.
#![tactic(auto)]

pub mod laws;
