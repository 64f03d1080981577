//! A cable that keeps the runs of its clocks.
#![tactic(auto)]

mod run_cable;
mod run_place;
mod runs;

pub use run_cable::RunCable;
pub use run_place::RunPlace;
pub use runs::{EndedRuns, Runs};
