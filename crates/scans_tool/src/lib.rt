//! The tool of the program `zanutero-scans`: it plays a program with an account, that is with a line for each scan and
//! the sums at the end.
#![tactic(auto)]

mod answering;
mod help;
pub mod laws;
mod playing;
mod tool;
mod words;

pub use tool::ScansPlay;
