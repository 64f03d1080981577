//! The memory of a device of kind `Flash`.
ghost use Rattle.std.specs.Prelude.{◌≡◌, ◌<◌, ◌≤◌, ◌+◌, ◌-◌, ◌==◌, not, false, ◌∷◌, length, map, replicate, Some, IfOk};
ghost use Rattle.std.specs.Prelude.{slice_get, List, Bool};
ghost use Rattle.base.specs.Bits.{low_bits, number_of};
ghost use Rattle.dev_card.specs.Descriptions.{IsGoodFlash};
ghost use Rattle.dev_card.specs.Card.{captured, flash_register_with, flash_address, flash_erase, flash_program, flash_read};
ghost use Rattle.dev_kinds.specs.Memories.{fresh_store, flash_card, register_of, IsUpdated};

use crate::bit_copies::{fill_bits, keep_common};
use crate::test_logic::TestLogic;
use bit_list::Bits;
use dev_card::FlashDesc;
use std::alloc::{AllocError, Global};
use std::marker::Model;

// How many bits the address has.
const ADDRESS_BITS: u32 = 16;

// The data register that is selected in a device of kind Flash: BYPASS, the identification register with its code, or
// one of the four of the memory.
#[derive(Clone, Copy)]
pub enum FlashRegister {
    Bypass,
    Identity(u32),
    Address,
    Erase,
    Program,
    Read,
}

// The words of a Flash, with the address and the busy count.
#[derive(Drop)]
pub struct Memory {
    shape: FlashDesc,
    address: Bits,
    words: Vec<Bits>,
    busy: u32,
    // as long as a word, for what is programmed, and for what is captured where no word is read
    buffer: Bits,
}

impl Model for Memory {
    ghost use Rattle.dev_kinds.specs.Memories.{MemoryStore, IsStore};

    ghost Value = { MemoryStore };

    ghost view = { λ m. record { shape = m.shape; address = m.address; words = m.words.items; busy = m.busy } };

    ghost invariant = { λ m. IsStore m.shape m.address m.words.items m.buffer };
}

impl Memory {
    // The memory after power-up. No other call takes memory.
    pub fn fresh(alloc: Global, shape: FlashDesc) -> Result<Memory, AllocError>
        requires { IsGoodFlash shape }
        ensures { IfOk result (λ m. m ≡ fresh_store shape) }
    {
        let address = Bits::zeros(alloc, ADDRESS_BITS)?;
        let buffer = Bits::zeros(alloc, shape.width)?;
        let words = filled_words(alloc, shape.words, shape.width, shape.fill)?;
        Ok(Memory {
            shape,
            address,
            words,
            busy: 0,
            buffer,
        })
    }

    // The memory is as after power-up.
    pub fn clear(&mut self)
        ensures { self.new ≡ fresh_store self.old.shape }
    {
        fill_bits(&mut self.address, false);
        fill_words(&mut self.words, self.shape.fill);
        self.busy = 0;
    }

    // The register with this opcode, among those of the memory.
    pub fn register(&self, op: u64) -> FlashRegister
        ensures { flash_register_with (Some self.now.shape) op ≡ register_of result self.now.shape }
    {
        if self.shape.addr == op {
            FlashRegister::Address
        } else if self.shape.erase == op {
            FlashRegister::Erase
        } else if self.shape.prog == op {
            FlashRegister::Program
        } else if self.shape.read == op {
            FlashRegister::Read
        } else {
            FlashRegister::Bypass
        }
    }

    pub fn is_busy(&self) -> bool
        ensures { result ≡ not (self.now.busy == 0) }
    {
        self.busy != 0
    }

    // A clock in the idle state.
    pub fn count_down(&mut self)
        ensures { self.new ≡ record self.old { busy = self.old.busy - 1 } }
    {
        self.busy = self.busy.saturating_sub(1);
    }
}

// Updates of the four registers with the data list, and captures of those that are as long as a word.
impl Memory {
    // An update of the address.
    pub fn set_address(&mut self, logic: &TestLogic)
        requires { length logic.now.dr_list ≡ 16 }
        ensures { IsUpdated logic.now self.old self.new (flash_address self.old.shape) }
    {
        logic.give_bits(&mut self.address);
    }

    // An update of the register that erases.
    pub fn erase(&mut self, logic: &TestLogic)
        ensures { IsUpdated logic.now self.old self.new (flash_erase self.old.shape) }
    {
        if logic.lowest() && !self.is_busy() {
            fill_words(&mut self.words, true);
            self.busy = self.shape.busy;
        }
    }

    // An update of the register that programs. A bit that is 0 stays 0.
    pub fn program(&mut self, logic: &TestLogic)
        requires { length logic.now.dr_list ≡ self.old.shape.width }
        ensures { IsUpdated logic.now self.old self.new (flash_program self.old.shape) }
    {
        if self.is_busy() {
            return;
        }
        logic.give_bits(&mut self.buffer);
        let place = number_at(&self.address) as usize;
        if place < self.words.len() {
            keep_common(&mut self.words[place], &self.buffer);
        }
        raise(&mut self.address);
        self.busy = self.shape.busy;
    }

    // An update of the register that reads.
    pub fn next_word(&mut self, logic: &TestLogic)
        ensures { IsUpdated logic.now self.old self.new (flash_read self.old.shape) }
    {
        raise(&mut self.address);
    }

    // The data list captures the address.
    pub fn capture_address(&self, logic: &mut TestLogic)
        requires { 4096 ≤ logic.old.room }
        ensures { logic.new ≡ record logic.old {
          dr_list = captured (flash_card logic.old self.now) (flash_address self.now.shape);
        } }
    {
        logic.capture_bits(&self.address);
    }

    // The data list captures whether the memory is busy, and zeros.
    pub fn capture_busy(&mut self, logic: &mut TestLogic)
        requires { 4096 ≤ logic.old.room }
        ensures same { self.new ≡ self.old }
        ensures captured { logic.new ≡ record logic.old {
          dr_list = captured (flash_card logic.old self.old) (flash_program self.old.shape);
        } }
    {
        let busy = self.is_busy();
        fill_bits(&mut self.buffer, false);
        self.buffer.set(0, busy);
        logic.capture_bits(&self.buffer);
    }

    // The data list captures the addressed word, or ones past the last word.
    pub fn capture_word(&mut self, logic: &mut TestLogic)
        requires { 4096 ≤ logic.old.room }
        ensures same { self.new ≡ self.old }
        ensures captured { logic.new ≡ record logic.old {
          dr_list = captured (flash_card logic.old self.old) (flash_read self.old.shape);
        } }
    {
        let place = number_at(&self.address) as usize;
        if place < self.words.len() {
            logic.capture_bits(&self.words[place]);
        } else {
            fill_bits(&mut self.buffer, true);
            logic.capture_bits(&self.buffer);
        }
    }
}

// The address and the words as cells.
impl Memory {
    pub fn cells(&self) -> u32
        ensures { result ≡ length (self.now.address ∷ self.now.words) }
    {
        self.words.len() as u32 + 1
    }

    pub fn list(&self, cell: u32) -> &Bits
        requires { cell < length (self.now.address ∷ self.now.words) }
        ensures { slice_get (self.now.address ∷ self.now.words) cell ≡ Some result.now }
    {
        if cell == 0 {
            &self.address
        } else {
            &self.words[cell as usize - 1]
        }
    }
}

// So many words of this width, filled with this bit.
fn filled_words(alloc: Global, count: u32, width: u32, fill: bool) -> Result<Vec<Bits>, AllocError>
    requires { width ≤ 4096 }
    ensures { IfOk result (λ words. words.items ≡ replicate count (replicate width fill)) }
{
    let mut words = Vec::new(alloc);
    for _word in 0..count {
        let mut word = Bits::zeros(alloc, width)?;
        fill_bits(&mut word, fill);
        words.push(word)?;
    }
    Ok(words)
}

// Every bit of the words becomes this one.
fn fill_words(words: &mut [Bits], bit: bool)
    ensures { words.new ≡ map (λ (word : List Bool). replicate (length word) bit) words.old }
{
    for i in 0..words.len() {
        fill_bits(&mut words[i], bit);
    }
}

// The number of an address.
fn number_at(address: &Bits) -> u32
    requires { length address.now ≡ 16 }
    ensures value { result ≡ number_of address.now }
    ensures limit { result < 65536 }
{
    address.to_int(0, ADDRESS_BITS).cast_unsigned()
}

// The address rises by 1; after the last one comes 0.
fn raise(address: &mut Bits)
    requires { length address.old ≡ 16 }
    ensures { address.new ≡ low_bits 16 (number_of address.old + 1) }
{
    let next = number_at(address) + 1;
    address.set_low_bits(0, next.cast_signed(), ADDRESS_BITS);
}
