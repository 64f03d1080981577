//! The cable to a chain of devices, and moves, stays, scans and the reset of its controllers.
#![tactic(auto)]

mod cable;
mod moves;
mod pads;
mod scans;
mod shifts;

pub use cable::Cable;
pub use moves::{move_to, reset_chain, stay};
pub use pads::{BasePads, Pads};
pub use scans::{ScanPlan, scan};
