//! The machine that runs code.
#![tactic(auto)]

mod running;
mod runs;
mod turns;

pub use running::Machine;
pub use turns::{piece_at, rest_of_turn, turn};
