//! The parser of the language: the statement that a piece of a text is, or the smallest reason why it is none.
#![tactic(auto)]

mod contents;
mod cursor;
mod declarations;
pub mod laws;
mod leaves;
mod lists;
mod looks;
mod outer;
mod parsing;
mod port;
mod reasons;
mod refused;
mod sign;
mod simple;
mod statements;
mod terms;

pub use parsing::{ParseRefused, parse};
