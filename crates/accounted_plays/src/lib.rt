//! Plays of a program by its code, with an account of its runs.
#![tactic(auto)]

mod laws_of_code;
mod over_cable;
mod playing;
mod putting;
mod rooms;

pub use playing::play_with_account;
