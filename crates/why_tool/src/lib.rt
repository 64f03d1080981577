//! The answer to `--why` and the words of a command: why that command does not do what was asked, and what to do. It
//! names the word, the file, the line, the piece, the action or the place, and says what is said of the reason.
#![tactic(auto)]

mod files;
mod outcomes;
mod playing;
mod soaking;
mod texts;
mod told;
mod whys;
mod words;

pub use whys::run_why;
