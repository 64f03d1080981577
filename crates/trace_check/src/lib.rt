//! Texts with lines of clocks, against a board: the lines are read, and the devices of a rack are clocked by their
//! digits.
#![tactic(auto)]

mod clocks;
mod lines;
mod trace;

pub use lines::{digits_of, first_bad_line, first_line};
pub use trace::{TRACE_LIMIT, TraceRefused, check_trace};
