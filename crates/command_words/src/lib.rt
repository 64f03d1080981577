//! The words of commands, for any program: names of files, and the values of words that begin with a key, as the path
//! in `board=a.board`.
#![tactic(auto)]

mod file_name;
mod given;
mod keyed;
mod place_run;
mod spellings;

pub use file_name::FileName;
pub use given::{file_named, names_given};
pub use keyed::{answer_under, free_name_under, names_under, number_under, path_under, run_under};
pub use place_run::{MOST_PLACE, PlaceRun};
