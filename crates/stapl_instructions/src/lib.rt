//! What an instruction does to a machine's workspace, and where it leads. Nothing here writes a line or drives a cable.
#![tactic(auto)]

mod act;
mod control;
mod fast_path;
mod printing;

pub use control::{Moved, Went, advance, begin_next};
pub use fast_path::{Tried, try_step};
pub use printing::print_room;
