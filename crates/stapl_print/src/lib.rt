//! The canonical text of programs: a formatter whose output is the same program.
#![tactic(auto)]

mod printing;

pub use printing::{PrintRefused, print_after, print_program, print_statements};
