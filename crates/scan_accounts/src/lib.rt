//! An account of a play: what each statement did at the pins, and how much the play did in all. Definitions and laws.
#![tactic(auto)]

pub mod laws;
