//! Of each piece of a program what an account of a play says of its turns, and how much room these need.
#![tactic(auto)]

pub mod laws;
mod states;
mod table;

pub use states::most_states;
pub use table::turn_table;
