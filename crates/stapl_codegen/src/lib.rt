//! The compiler: from the statements of a program to the code of the stack machine.
#![tactic(auto)]

mod blocks;
mod chain;
mod compiling;
mod definitions;
mod draft;
mod emit;
pub mod laws;
mod literals;
mod recording;
mod scanning;
mod tables;

pub use compiling::generate;
