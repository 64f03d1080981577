//! The tool of the program `zanutero-drive`: it plays a program over a wire, to a peer that answers the bytes of the
//! protocol remote bitbang.
#![tactic(auto)]

mod command;
mod driving;
mod help;
pub mod laws;
mod playing;
mod preparing;
mod refusals;
mod status;
mod top;
mod words;

pub use command::run_command;
pub use help::{HELP, VERSION};
pub use status::DriveStatus;
pub use top::run_drive;
