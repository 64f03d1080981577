//! Second opinions on the wave of a trace: the states that it shows, and what a reader of its dump sees. Definitions
//! and laws.
#![tactic(auto)]

pub mod laws;
