//! Programs in files: the program that a file holds, or why it holds none.
#![tactic(auto)]

mod programs;

pub use programs::{ProgramNotRead, program_named};
