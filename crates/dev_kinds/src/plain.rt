//! A device of kind `Plain`.
ghost use Rattle.std.specs.Prelude.{◌≡◌, None, []};
ghost use Rattle.dev_card.specs.declared.desc.Kind.TheVariants as kinds;
ghost use Rattle.dev_kinds.specs.DataRegisters.{without_memory};

use crate::component::Component;
use crate::data_registers::DataRegisters;
use crate::test_logic::TestLogic;
use bit_list::Bits;
use dev_card::{Desc, Device, Kind};
use std::alloc::{AllocError, Global};

// The identification register is the longest data register of a Plain.
const LONGEST_REGISTER: u32 = 32;

/// A device of kind `Plain`: it has the bypass register of 1 bit, perhaps the device identification register of 32
/// bits, and no other data register (IEEE 1149.1, clauses 10 and 12).
///
/// `fit` takes all the memory that it needs; a clock takes none, and constant time.
pub type Plain = Component<NoCells>;

// The data registers of a Plain: none of them has a cell, and it is never busy.
#[derive(Drop)]
pub struct NoCells {}

impl Plain {
    /// A device that is not fitted yet. It takes no memory.
    pub fn unfitted() -> Plain
        ensures unfitted { ⟦<Plain as Device>⟧.fitted result ≡ None }
        ensures kind { ⟦<Plain as Device>⟧.kind_of result ≡ kinds.Plain }
    {
        Component { state: None }
    }
}

impl DataRegisters for NoCells {
    ghost own_kind = { kinds.Plain };

    ghost longest = { 32 };

    ghost contents = { λ _. without_memory [] };

    fn kind() -> Kind {
        Kind::Plain
    }

    fn longest_register() -> u32 {
        LONGEST_REGISTER
    }

    fn new(_alloc: Global, _desc: &Desc) -> Result<NoCells, AllocError> {
        Ok(NoCells {})
    }

    fn blank(&mut self) {}

    fn capture(&mut self, logic: &mut TestLogic) {
        match logic.identity() {
            Some(code) => logic.capture_word(code),
            None => logic.capture_bit(false),
        }
    }

    fn update(&mut self, _logic: &TestLogic) {}

    fn rest(&mut self) {}

    fn cell_count(&self) -> u32 {
        0
    }

    fn cell(&self, _cell: u32) -> Option<&Bits> {
        None
    }
}
