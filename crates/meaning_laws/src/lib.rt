//! Second opinions on what a program means: which faults there are, what a range and a value are, in words of their
//! own; and that a printed program plays as the one that it was made of. Definitions and laws.
#![tactic(auto)]

pub mod laws;
