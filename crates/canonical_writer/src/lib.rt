//! Canonical text that is written token by token, and the lines of all statements.
#![tactic(auto)]

mod assignments;
mod chain;
mod declarations;
mod digits;
mod lines;
mod lists;
mod outer;
mod simple;
mod terms;
mod tokens;
mod writer;

pub use writer::Writer;
