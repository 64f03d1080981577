//! The text of a program that carries the padding for a run of devices, so that it plays on the whole chain.
#![tactic(auto)]

mod actions;
mod carrying;
mod names;
mod own_paddings;
mod procedures;
mod rewriting;

pub use rewriting::{RewriteRefused, rewrite};
