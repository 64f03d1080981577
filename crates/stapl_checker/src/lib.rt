//! The checker: it reads a text and gives its program, or its first fault.
#![tactic(auto)]

mod checking;
mod faults;
pub mod laws;
mod reading;
mod walk;

pub use checking::{CheckRefused, check};
