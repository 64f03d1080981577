//! Plays over a wire to a link.
#![tactic(auto)]

mod playing;

pub use playing::{play_linked, play_told};
