//! What a machine keeps while it runs a code, and what single values, elements and parts of arrays are made into.
#![tactic(auto)]

pub mod arrays;
pub mod effects;
pub mod memory;
pub mod operands;
pub mod operate;
pub mod part_bits;
pub mod parts;
pub mod record_stack;
pub mod records;
pub mod scan_bits;
pub mod settings;
mod zeros;
