//! Plays of a code: the choice of procedures, base padding for one device, and the play of the procedures that are
//! chosen.
#![tactic(auto)]

mod choosing;
mod padding;
mod playing;

pub use choosing::{ChoiceRefused, choose};
pub use padding::base_pads;
pub use playing::play;
