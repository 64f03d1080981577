//! Lists and stacks that contracts see as lists, numbers as lists of bits and their lowest bits, how decimal numbers
//! are spelled, and a count of steps.
#![tactic(auto)]

mod decimals;
mod item_list;
pub mod laws;
mod stack;
mod steps;
mod words;

pub use decimals::is_decimal;
pub use item_list::ItemList;
pub use stack::Stack;
pub use steps::Steps;
pub use words::lowest;
