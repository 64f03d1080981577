//! The tool of the program `zanutero-trace`: it compares a trace with a board.
#![tactic(auto)]

mod answering;
mod comparing;
mod help;
pub mod laws;
mod lines;
mod status;
mod tracer;

pub use lines::{put_bad_line, put_too_long};
pub use status::TraceStatus;
pub use tracer::Tracer;
