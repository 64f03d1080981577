//! The tool of the program `zanutero-quiet`: it says whether a play is quiet on its devices alone, and else which is
//! its first deed that is not, and why; of one action of a program, or of each.
#![tactic(auto)]

mod actions;
mod answering;
mod help;
mod judge;
mod judging;
pub mod laws;
mod lines;
mod status;
mod words;

pub use judge::QuietJudge;
pub use status::QuietStatus;
