//! A board and a program for the burn-in of a test station, made from a number.
#![tactic(auto)]

mod board;
mod draws;
pub mod laws;
mod lines;
mod program;
mod step;
mod texts;

pub use texts::{Soak, soak_texts};
