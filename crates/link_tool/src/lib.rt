//! The tool that answers the recorded session of a link: its words, its answers, and its top call.
#![tactic(auto)]

mod command;
mod help;
pub mod laws;
mod serving;
mod session;
mod status;
mod top;

pub use command::run_command;
pub use help::{HELP, VERSION};
pub use status::LinkStatus;
pub use top::run_link;
