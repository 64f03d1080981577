//! Plays that hear what a link answers, and plays on the board of that link: definitions and laws.
#![tactic(auto)]

pub mod laws;
