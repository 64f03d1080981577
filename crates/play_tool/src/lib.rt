//! The tool: its answers, and its top call.
#![tactic(auto)]

mod answering;
mod codes;
pub mod laws;
mod lines;
mod player;
mod programs;
mod soaking;
mod sources;
mod top;

pub use lines::put_code_refusal;
pub use player::Player;
pub use programs::{Work, play_program, work_on};
pub use soaking::request_at;
pub use sources::Source;
pub use top::run_tool;
