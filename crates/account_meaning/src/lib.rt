//! The account of a code is that of its program: law.
#![tactic(auto)]

pub mod laws;
