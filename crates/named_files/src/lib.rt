//! Files that the words of a command name: words that are a board and one more file, the board in a file, and what is
//! written of a board, a program or words that are refused.
#![tactic(auto)]

mod boards;
pub mod laws;
mod refusals;
mod words;

pub use boards::{BoardNotRead, board_named, board_of};
pub use refusals::{put_board_refusal, put_refusal, put_usage};
pub use words::{Named, path_at, read_words};
