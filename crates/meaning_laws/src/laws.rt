//! Laws of the definitions, by their subjects.
pub mod faults;
pub mod printed;
pub mod ranges;
pub mod values;
