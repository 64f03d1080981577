//! Second opinions on which plays are quiet: each point that is asked is needed, and no other is asked. Definitions and
//! laws.
#![tactic(auto)]

pub mod laws;
