//! Plays of a code with an account: what each turn did at the pins.
#![tactic(auto)]

mod accounting;
mod playing;
mod resetting;
mod run_lines;
mod running;
mod turns;

pub use accounting::account_turn;
pub use playing::account_run;
pub use resetting::account_reset;
pub use running::{Over, account_turns};
pub use turns::{Course, Turned};
