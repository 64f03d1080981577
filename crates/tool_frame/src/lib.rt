//! One frame for all tools: what a tool is, why it gives no answer, and the calls that run one over the words of a
//! command, whose `--help` and `--version`, each alone, are answered by texts.
#![tactic(auto)]

mod command;
mod no_answer;
mod shown;
mod system_words;
mod tool;

pub use command::{CommandEnding, exit_code, run_command, run_program};
pub use no_answer::NoAnswer;
pub use shown::{text_asked, write_text};
pub use system_words::{NO_WORDS, words_of};
pub use tool::{Tool, run};
