//! A program that carries the padding for a run of devices of a board: the law of its plays, and of its text.
#![tactic(auto)]

pub mod laws;
