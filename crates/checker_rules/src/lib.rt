//! The rules by which one statement is judged: what stands before it is kept, and the smallest reason against it is named.
#![tactic(auto)]

mod course;
mod judging;
mod kinds;
mod mentions;
mod order;
mod repeats;
mod scope;
mod sizes;
mod stops;

pub use course::Course;
pub use judging::broken_rule;
pub use order::Place;
pub use sizes::Totals;
