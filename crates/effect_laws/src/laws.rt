//! Laws of the definitions, by their subjects.
pub mod assignments;
pub mod chains;
pub mod frame;
pub mod loops;
pub mod scans;
pub mod stack;
pub mod texts;
pub mod ways;
