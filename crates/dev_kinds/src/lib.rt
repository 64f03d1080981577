//! The kinds of device.
#![tactic(auto)]

mod bit_copies;
mod blocks;
mod component;
mod data_registers;
mod fitted;
mod flash;
mod memory;
mod plain;
mod registers;
mod regs;
mod ring;
mod shift_list;
mod test_logic;

pub use flash::Flash;
pub use plain::Plain;
pub use regs::Regs;
