//! Where the play of a code goes on after so many turns.
#![tactic(auto)]

mod places;
mod playing;

pub use playing::place_after;
