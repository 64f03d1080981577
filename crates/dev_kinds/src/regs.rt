//! A device of kind `Regs`.
ghost use Rattle.std.specs.Prelude.{◌≡◌, None};
ghost use Rattle.dev_card.specs.declared.desc.Kind.TheVariants as kinds;
ghost use Rattle.dev_kinds.specs.DataRegisters.{without_memory};

use crate::component::Component;
use crate::data_registers::DataRegisters;
use crate::registers::HeldList;
use crate::test_logic::{DataRegister, TestLogic};
use bit_list::Bits;
use dev_card::{Desc, Device, Kind};
use std::alloc::{AllocError, Global};

// The longest data register of a good description.
const LONGEST_REGISTER: u32 = 65536;

/// A device of kind `Regs`: beside the bypass register, and perhaps the device identification register, it has 1 to 64
/// data registers of its own, of 1 to 65,536 bits each (IEEE 1149.1, test data registers). Each holds its last update,
/// at first zeros. A register with a constant captures the constant, and each other one what it holds.
///
/// Its cells are what the registers hold, in the order of the description, the bit of lowest value first.
///
/// `fit` takes all the memory that it needs. A clock takes none, and constant time. Only one that captures or updates a
/// register takes time that grows with the length of that register.
pub type Regs = Component<HeldList>;

impl Regs {
    /// A device that is not fitted yet. It takes no memory.
    pub fn unfitted() -> Regs
        ensures unfitted { ⟦<Regs as Device>⟧.fitted result ≡ None }
        ensures kind { ⟦<Regs as Device>⟧.kind_of result ≡ kinds.Regs }
    {
        Component { state: None }
    }
}

// A Regs is never busy.
impl DataRegisters for HeldList {
    ghost own_kind = { kinds.Regs };

    ghost longest = { 65536 };

    ghost contents = { without_memory };

    fn kind() -> Kind {
        Kind::Regs
    }

    fn longest_register() -> u32 {
        LONGEST_REGISTER
    }

    fn new(alloc: Global, desc: &Desc) -> Result<HeldList, AllocError> {
        HeldList::zeros(alloc, desc.registers.as_slice())
    }

    fn blank(&mut self) {
        self.clear();
    }

    fn capture(&mut self, logic: &mut TestLogic) {
        match logic.selected() {
            DataRegister::Bypass => logic.capture_bit(false),
            DataRegister::Identity(code) => logic.capture_word(code),
            DataRegister::Held(k) => logic.capture_held(k, self.get(k)),
        }
    }

    fn update(&mut self, logic: &TestLogic) {
        match logic.selected() {
            DataRegister::Bypass => {}
            DataRegister::Identity(_) => {}
            DataRegister::Held(k) => self.store(k, logic),
        }
    }

    fn rest(&mut self) {}

    fn cell_count(&self) -> u32 {
        self.len()
    }

    fn cell(&self, cell: u32) -> Option<&Bits> {
        if cell < self.len() {
            Some(self.get(cell))
        } else {
            None
        }
    }
}
