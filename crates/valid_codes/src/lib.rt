//! Valid codes: whether a code can never get stuck, or which of its instructions breaks a rule first.
#![tactic(auto)]

mod depth;
mod parts;
mod valid;

pub use valid::{Code, ValidateRefused, validate};
