//! What a STAPL program means: events, runs and plays, and the text that is written for them.
#![tactic(auto)]

mod events;
pub mod laws;
mod profiles;
mod records;
mod values;
mod waits;

pub use events::{Ending, Event, ExportValue, RunFault, Text};
pub use profiles::Profile;
pub use records::{Loop, Record};
pub use values::{Held, Value, ValueKind};
pub use waits::WaitKind;
