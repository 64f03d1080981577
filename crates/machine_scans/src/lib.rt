//! What instructions make for the outside: exports, waits, and scans, whose bits they take before and land after.
#![tactic(auto)]

mod exporting;
mod scan_parts;
mod scanning;
mod waiting;

pub use exporting::export;
pub use scanning::{land, pad, scan, stop};
pub use waiting::{go_through, tune, wait};
