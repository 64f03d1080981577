//! The tool of the program `zanutero-print`: it writes the canonical text of the program in a file.
#![tactic(auto)]

mod answering;
mod help;
pub mod laws;
mod printer;
mod status;
mod words;

pub use printer::Printer;
pub use status::PrintStatus;
