//! A device of kind `Flash`.
ghost use Rattle.std.specs.Prelude.{◌≡◌, None, Some};
ghost use Rattle.dev_card.specs.declared.desc.Kind.TheVariants as kinds;
ghost use Rattle.dev_card.specs.Card.{selected_by};
ghost use Rattle.dev_kinds.specs.Memories.{register_of, store_contents};

use crate::component::Component;
use crate::data_registers::DataRegisters;
use crate::memory::{FlashRegister, Memory};
use crate::test_logic::TestLogic;
use bit_list::Bits;
use dev_card::{Desc, Device, Kind};
use std::alloc::{AllocError, Global};

// The longest data register of a good description: a word.
const LONGEST_REGISTER: u32 = 4096;

/// A device of kind `Flash`: beside the bypass register, and perhaps the device identification register, it has a
/// memory of 1 to 4,096 words of 1 to 4,096 bits each, and four data registers (IEEE 1149.1, test data registers; what
/// they do is this profile's). One sets the address of 16 bits, one of 1 bit erases all words to ones, one programs the
/// addressed word, which can only clear bits, and one reads it. After it was erased or programmed, the memory is busy
/// for a number of clocks in the idle state, and takes neither.
///
/// Its cells are the address and then the words, the bit of lowest value first. A word takes one bit of memory for each
/// of its bits.
///
/// `fit` takes all the memory that it needs. A clock takes none, and constant time. Only one that captures or updates a
/// register takes time that grows with the length of that register, and one that erases with the size of the memory.
pub type Flash = Component<Memory>;

impl Flash {
    /// A device that is not fitted yet. It takes no memory.
    pub fn unfitted() -> Flash
        ensures unfitted { ⟦<Flash as Device>⟧.fitted result ≡ None }
        ensures kind { ⟦<Flash as Device>⟧.kind_of result ≡ kinds.Flash }
    {
        Component { state: None }
    }
}

// The selected data register.
fn selected(logic: &TestLogic, memory: &Memory) -> FlashRegister
    requires kind { logic.now.desc.kind ≡ kinds.Flash }
    requires shape { logic.now.desc.flash ≡ Some memory.now.shape }
    ensures { selected_by logic.now.desc logic.now.instruction ≡ register_of result memory.now.shape }
{
    match logic.identity() {
        Some(code) => FlashRegister::Identity(code),
        None => memory.register(logic.instruction()),
    }
}

impl DataRegisters for Memory {
    ghost own_kind = { kinds.Flash };

    ghost longest = { 4096 };

    ghost contents = { store_contents };

    fn kind() -> Kind {
        Kind::Flash
    }

    fn longest_register() -> u32 {
        LONGEST_REGISTER
    }

    fn new(alloc: Global, desc: &Desc) -> Result<Memory, AllocError> {
        match desc.flash {
            Some(shape) => Memory::fresh(alloc, shape),
            None => unreachable!(),
        }
    }

    fn blank(&mut self) {
        self.clear();
    }

    fn capture(&mut self, logic: &mut TestLogic) {
        match selected(logic, self) {
            FlashRegister::Bypass => logic.capture_bit(false),
            FlashRegister::Identity(code) => logic.capture_word(code),
            FlashRegister::Address => self.capture_address(logic),
            FlashRegister::Erase => logic.capture_bit(self.is_busy()),
            FlashRegister::Program => self.capture_busy(logic),
            FlashRegister::Read => self.capture_word(logic),
        }
    }

    fn update(&mut self, logic: &TestLogic) {
        match selected(logic, self) {
            FlashRegister::Bypass => {}
            FlashRegister::Identity(_) => {}
            FlashRegister::Address => self.set_address(logic),
            FlashRegister::Erase => self.erase(logic),
            FlashRegister::Program => self.program(logic),
            FlashRegister::Read => self.next_word(logic),
        }
    }

    fn rest(&mut self) {
        self.count_down();
    }

    fn cell_count(&self) -> u32 {
        self.cells()
    }

    fn cell(&self, cell: u32) -> Option<&Bits> {
        if cell < self.cells() {
            Some(self.list(cell))
        } else {
            None
        }
    }
}
