//! The lines of an account of a play.
#![tactic(auto)]

mod lines;

pub use lines::{Sums, TurnPlace, put_run, put_sums};
