//! What all kinds share.
ghost use Rattle.std.specs.Prelude.{◌≡◌, ◌<◌, ◌≤◌, ◌+◌, ◌-◌, ◌*◌, ◌/◌, ◌^◌, ℕ, Bool, List, [], ◌∷◌, length};
ghost use Rattle.std.specs.Prelude.{Some, IfOk, MatchOption, slice_get};
ghost use Rattle.base.specs.Bits.{low_bits, bit_value};
ghost use Rattle.dev_card.specs.Descriptions.{IsGood};
ghost use Rattle.dev_card.specs.declared.desc.Kind.TheVariants as kinds;
ghost use Rattle.dev_card.specs.declared.desc.RegDesc.{RegDesc};
ghost use Rattle.dev_card.specs.Card.{reset_instruction, tdo_of, constant_or};
ghost use Rattle.dev_kinds.specs.Registers.{IsSelected};
ghost use Rattle.dev_kinds.specs.Logic.{IsBlockShifted, card_of, lists_moved, state_entered, fresh_logic, selected_identity};

use crate::blocks::through;
use crate::registers::find_register;
use crate::shift_list::ShiftList;
use bit_list::Bits;
use dev_card::Desc;
use std::alloc::{AllocError, Global};
use std::marker::Model;
use tap_states::Tap;

// The data register that is selected in a device of kind Regs: BYPASS, the identification register with its code, or
// the register of the description with this number, counted from 0.
#[derive(Clone, Copy)]
pub enum DataRegister {
    Bypass,
    Identity(u32),
    Held(u32),
}

// The test logic that all kinds share (IEEE 1149.1, clauses 6 to 8): the controller, the instruction register, and the
// list that is shifted through the selected data register.
#[derive(Drop)]
pub struct TestLogic {
    desc: Desc,
    tap: Tap,
    instruction: u64,
    // the list of the instruction register as a number
    ir_number: u64,
    dr_list: ShiftList,
}

impl Model for TestLogic {
    ghost use Rattle.base.specs.Bits.{low_bits};
    ghost use Rattle.dev_kinds.specs.Logic.{Logic, IsLogic};

    ghost Value = { Logic };

    ghost view = { λ s. record {
      desc = s.desc;
      tap = s.tap;
      instruction = s.instruction;
      ir_list = low_bits s.desc.ir_len s.ir_number;
      dr_list = s.dr_list.bits;
      room = s.dr_list.room;
    } };

    ghost invariant = { λ s. IsLogic s.desc s.ir_number s.dr_list.bits s.dr_list.room };
}

// The opcode in reset.
fn opcode_in_reset(desc: &Desc) -> u64
    requires { IsGood desc.now }
    ensures { result ≡ reset_instruction desc.now }
{
    match desc.id {
        Some(id) => id.op,
        None => all_ones(desc.ir_len),
    }
}

// The number of n bits of which all are 1.
fn all_ones(n: u32) -> u64
    requires low { 2 ≤ n }
    requires high { n ≤ 64 }
    ensures { result ≡ 2 ^ n - 1 }
{
    if n == 64 { u64::MAX } else { (1u64 << n) - 1 }
}

// A list of n bits in a number loses its lowest and gets one as its highest.
fn shift_in(bits: u64, n: u32, bit: bool) -> u64
    requires low { 2 ≤ n }
    requires high { n ≤ 64 }
    requires fits { bits < 2 ^ n }
    ensures value { result ≡ bits / 2 + bit_value bit * 2 ^ (n - 1) }
    ensures fits { result < 2 ^ n }
{
    let top = if bit { 1u64 << (n - 1) } else { 0 };
    bits / 2 + top
}

impl TestLogic {
    // The test logic of a device with this description after power-up, with room for so many bits in its data list. No
    // other call takes memory.
    pub fn new(alloc: Global, desc: &Desc, room: u32) -> Result<TestLogic, AllocError>
        requires good { IsGood desc.now }
        requires room { 32 ≤ room }
        requires most { room ≤ 65536 }
        ensures { IfOk result (λ k. k ≡ fresh_logic desc.now room) }
    {
        let instruction = opcode_in_reset(desc);
        let dr_list = ShiftList::new(alloc, room)?;
        let desc = desc.copied(alloc)?;
        Ok(TestLogic {
            desc,
            tap: Tap::Reset,
            instruction,
            ir_number: 0,
            dr_list,
        })
    }

    pub fn tap(&self) -> Tap
        ensures { result ≡ self.now.tap }
    {
        self.tap
    }

    pub fn instruction(&self) -> u64
        ensures { result ≡ self.now.instruction }
    {
        self.instruction
    }

    // TDO before a clock.
    pub fn tdo(&self) -> bool
        ensures { (cells : List (List Bool)) (busy : ℕ) → result ≡ tdo_of (card_of self.now cells busy) }
    {
        match self.tap {
            Tap::IrShift => self.ir_number % 2 == 1,
            Tap::DrShift => self.dr_list.lowest(),
            _ => true,
        }
    }

    // What a clock does to the lists, the capture of data excepted.
    pub fn move_lists(&mut self, tdi: bool)
        ensures { self.new ≡ lists_moved self.old.tap tdi self.old }
    {
        match self.tap {
            Tap::IrCapture => self.ir_number = 1,
            Tap::IrShift => self.ir_number = shift_in(self.ir_number, self.desc.ir_len, tdi),
            Tap::DrShift => self.dr_list.shift(tdi),
            _ => {}
        }
    }

    // A block in one of the two states in which a list is shifted, all at once; in another state none.
    pub fn shift_block(&mut self, tdi: u64, n: u32, last: bool) -> Option<u64>
        requires some { 1 ≤ n }
        requires most { n ≤ 64 }
        ensures desc { self.new.desc ≡ self.old.desc }
        ensures room { self.new.room ≡ self.old.room }
        ensures shifted { MatchOption result (self.new ≡ self.old)
            (λ tdo. IsBlockShifted self.old self.new tdi n last tdo) }
    {
        match self.tap {
            Tap::IrShift => {
                let (tdo, list) = through(self.ir_number, self.desc.ir_len, tdi, n);
                self.ir_number = list;
                self.tap = Tap::IrShift.next(last);
                Some(tdo)
            }
            Tap::DrShift => {
                let tdo = self.dr_list.shift_block(tdi, n);
                self.tap = Tap::DrShift.next(last);
                Some(tdo)
            }
            _ => None,
        }
    }

    // What a clock does on coming to a state, the update of data excepted.
    pub fn enter(&mut self, tap: Tap)
        ensures { self.new ≡ state_entered tap self.old }
    {
        match tap {
            Tap::IrUpdate => {
                self.instruction = self.ir_number;
                self.tap = tap;
            }
            Tap::Reset => {
                self.instruction = opcode_in_reset(&self.desc);
                self.tap = tap;
            }
            _ => self.tap = tap,
        }
    }

    // The state after power-up.
    pub fn blank(&mut self)
        ensures { self.new ≡ fresh_logic self.old.desc self.old.room }
    {
        self.enter(Tap::Reset);
        self.ir_number = 0;
        self.dr_list.load_bit(false);
    }

    // The identification code, where its register is selected.
    pub fn identity(&self) -> Option<u32>
        ensures { result ≡ selected_identity self.now.desc.id self.now.instruction }
    {
        match self.desc.id {
            Some(id) => {
                if id.op == self.instruction {
                    Some(id.value)
                } else {
                    None
                }
            }
            None => None,
        }
    }

    // The selected data register of a device of kind Regs.
    pub fn selected(&self) -> DataRegister
        requires { self.now.desc.kind ≡ kinds.Regs }
        ensures { IsSelected result self.now.desc self.now.instruction }
    {
        match self.identity() {
            Some(code) => DataRegister::Identity(code),
            None => match find_register(self.desc.registers.as_slice(), self.instruction) {
                Some(k) => DataRegister::Held(k),
                None => DataRegister::Bypass,
            },
        }
    }

    // The data list captures what register k gives: its constant, or what it holds.
    pub fn capture_held(&mut self, k: u32, held: &Bits)
        requires kind { self.old.desc.kind ≡ kinds.Regs }
        requires room { 65536 ≤ self.old.room }
        requires register { (r : RegDesc) × ((slice_get self.old.desc.registers k ≡ Some r)
            × (length held.now ≡ r.len)) }
        ensures { (r : RegDesc) → slice_get self.old.desc.registers k ≡ Some r →
            self.new ≡ record self.old { dr_list = constant_or r.constant held.now } }
    {
        match &self.desc.registers.as_slice()[k as usize].constant {
            Some(bits) => self.dr_list.load(bits),
            None => self.dr_list.load(held),
        }
    }

    // The data list is given to a list of its length.
    pub fn give_bits(&self, bits: &mut Bits)
        requires { length bits.old ≡ length self.now.dr_list }
        ensures { bits.new ≡ self.now.dr_list }
    {
        self.dr_list.give(bits);
    }

    // The lowest bit of the data list.
    pub fn lowest(&self) -> bool
        ensures { slice_get self.now.dr_list 0 ≡ Some result }
    {
        self.dr_list.lowest()
    }

    // The data list captures these bits.
    pub fn capture_bits(&mut self, bits: &Bits)
        requires some { 0 < length bits.now }
        requires room { length bits.now ≤ self.old.room }
        ensures { self.new ≡ record self.old { dr_list = bits.now } }
    {
        self.dr_list.load(bits);
    }

    // The data list captures one bit.
    pub fn capture_bit(&mut self, bit: bool)
        ensures { self.new ≡ record self.old { dr_list = bit ∷ [] } }
    {
        self.dr_list.load_bit(bit);
    }

    // The data list captures the 32 bits of a number.
    pub fn capture_word(&mut self, word: u32)
        ensures { self.new ≡ record self.old { dr_list = low_bits 32 word } }
    {
        self.dr_list.load_number(u64::from(word), 32);
    }
}
