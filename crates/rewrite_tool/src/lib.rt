//! The tool of the program `zanutero-rewrite`: it writes the program of a file with the padding for a run of devices.
#![tactic(auto)]

mod help;
pub mod laws;
mod programs;
mod requests;
mod rewriter;
mod status;
mod words;

pub use rewriter::Rewriter;
pub use status::RewriteStatus;
