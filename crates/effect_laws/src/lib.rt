//! Second opinions on what a statement does if it does not fault: what a turn changes and what it leaves, where it goes
//! on, and what it writes. Definitions and laws.
#![tactic(auto)]

pub mod laws;
