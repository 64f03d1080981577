//! Plays of a code on devices alone, over a watch: whether they are quiet, and else in which turn they first are not,
//! and why.
#![tactic(auto)]

mod first_turns;
mod judging;
mod marks;
mod pieces;
mod silence;
mod watching;

pub use first_turns::{Verdict, quiet_play};
pub use silence::Silence;
