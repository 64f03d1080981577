//! Board texts: the descriptions of the devices of a chain.
#![tactic(auto)]

mod device;
mod digits;
mod fields;
mod judging;
pub mod laws;
mod lines;
mod opcodes;
mod reading;
mod reason;
mod register;
mod shapes;

pub use lines::first_line;
pub use reading::{BoardTextRefused, MOST_BYTES, read_board};
pub use reason::BoardReason;
