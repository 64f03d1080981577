//! The simulated chain: devices at places of a rack, clocked in lockstep, and the fitting of a board into a rack.
#![tactic(auto)]

mod chain;
mod fit;
mod kinds;
mod rack;
mod report;

pub use chain::{Chain, ChainOf};
pub use fit::fit_board;
pub use kinds::is_rack;
pub use rack::{clock_all, first_tdo};
pub use report::put_report;
