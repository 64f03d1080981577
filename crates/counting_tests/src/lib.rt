//! A small tool over the crates that all programs share, and its tests: it counts the devices of a board. It has words,
//! a status and an answer of its own, and knows nothing of other tools.
#![tactic(auto)]

mod answering;
mod counter;
mod help;
pub mod laws;
mod status;
mod words;

pub use counter::Counter;
pub use status::CountStatus;

#[cfg(test)]
mod counts;
