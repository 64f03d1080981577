//! A cable over a wire to a link, and a wire in memory.
#![tactic(auto)]

mod calls;
mod link_cable;
mod mem_wire;
mod waiting;
mod wire;

pub use link_cable::LinkCable;
pub use mem_wire::{MemWire, MemWireOf};
pub use wire::Wire;
