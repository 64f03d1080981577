//! What instructions make of the bits of arrays and literals: copies, and integers of them.
#![tactic(auto)]

mod copying;

pub use copying::{copy, integer, range_integer};
