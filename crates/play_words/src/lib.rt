//! The words of the tool that plays: the mode, and after it keys with their values; and how a run of the tool ends.
#![tactic(auto)]

mod help;
pub mod laws;
mod mode;
mod requests;
mod status;
mod words;

pub use command_words::PlaceRun;
pub use help::{HELP, VERSION};
pub use mode::{Mode, WordKey};
pub use requests::{FilePlay, PlayRequest, Request};
pub use status::Status;
pub use words::{USUAL_TURNS, WordsRefused, mode_of, read_words};
