//! What the player answers to a request for a program with base padding, and for the text that carries it: a law.
#![tactic(auto)]

pub mod laws;
