//! Second opinions on the limits of a piece, and on the brackets of canonical text. Definitions and laws.
#![tactic(auto)]

pub mod laws;
