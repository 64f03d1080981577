//! The tool of the program `zanutero-wave`: it writes the clocks and waits of a trace as a Value Change Dump.
#![tactic(auto)]

mod answering;
mod help;
mod items;
pub mod laws;
mod possible;
mod status;
mod wave;
mod waver;
mod words;

pub use possible::Possible;
pub use status::WaveStatus;
pub use wave::{Levels, Progress, put_wave};
pub use waver::Waver;
