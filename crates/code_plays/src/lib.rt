//! Plays of a code: of an action of it, on a board that is fitted into a rack of devices.
#![tactic(auto)]

mod endings;
mod over_cable;
mod playing;

pub use endings::put_ending;
pub use over_cable::{base_of, failed};
pub use playing::{Task, choose_asked, has_place, play_code, status_of};
