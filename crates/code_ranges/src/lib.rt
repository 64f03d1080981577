//! Whether the lists of a code may make a raw code: their fields are in range, and its file is not too long.
#![tactic(auto)]

mod ranges;
mod sizes;

pub use ranges::is_in_range;
pub use sizes::is_short;
