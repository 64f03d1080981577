//! The lines of a play, and a cable whose signals are written to them.
#![tactic(auto)]

mod deeds;
mod digits;
mod line_writer;
mod paper;
mod pin_cable;
mod reset;
mod trouble;

pub use digits::Digits;
pub use line_writer::put_digits;
pub use paper::Paper;
pub use pin_cable::PinCable;
pub use reset::five_ones;
pub use trouble::{Trouble, trouble_of};
