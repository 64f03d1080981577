//! What the player answers to a request, and what a play of that request over a wire to a link comes to: a law.
#![tactic(auto)]

pub mod laws;
