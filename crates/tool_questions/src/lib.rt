//! Questions about what the tool says: `--explain` and a word; `--piece`, a number and a program; `--line`, a number and
//! a board; and `--board` and a board. A piece is shown with its line and its text, and if the program is refused there,
//! with why and what to do; and so is a line of a board.
#![tactic(auto)]

mod ask;
mod board;
mod board_lines;
mod explanation_texts;
mod explanations;
pub mod laws;
mod lines;
mod piece;
mod questioner;
mod report;
mod words;

pub use ask::{ask_question, refuse};
pub use board::{answer_long as show_long_board, show_line};
pub use board_lines::put_devices;
pub use explanations::{joined, lines_with, put_paragraphs};
pub use piece::{answer_long as show_long_program, show_piece};
pub use questioner::Questioner;
pub use words::words_after;
