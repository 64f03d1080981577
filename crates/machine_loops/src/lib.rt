//! What instructions make of loops.
#![tactic(auto)]

mod loops;

pub use loops::{begin_loop, integer_held, is_over, repeat};
