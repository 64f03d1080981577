//! A watch over the devices of a board, which sees whether a play on these devices alone is quiet.
#![tactic(auto)]

mod counting;
pub mod laws;
mod lengths;
mod watch;

pub use counting::Counting;
pub use watch::Watch;
