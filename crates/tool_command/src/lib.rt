//! What a command does with its words, over any store and any sink: it writes the text of `--help` or `--version`, or
//! runs one of its two tools, that of questions or that of plays.
#![tactic(auto)]

mod command;

pub use command::run_command;
