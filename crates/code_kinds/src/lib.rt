//! The kinds of the operands that a code holds, instruction by instruction.
#![tactic(auto)]

mod kinds;
mod scan_wants;

pub use kinds::follow;
