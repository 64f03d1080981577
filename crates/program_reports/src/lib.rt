//! What `check` and `list` say of a program.
#![tactic(auto)]

mod checking;
pub mod laws;
mod listing;

pub use checking::{CheckWords, check_words, put_check};
pub use listing::put_list;
