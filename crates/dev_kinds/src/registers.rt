//! The data registers of a device of kind `Regs`.
ghost use Rattle.std.specs.Prelude.{◌≡◌, ◌<◌, ◌≤◌, false, Bool, List, length, map, replicate, Some, IfOk, MatchOption};
ghost use Rattle.std.specs.Prelude.{slice_get, slice_set};
ghost use Rattle.dev_card.specs.declared.desc.RegDesc.{RegDesc};
ghost use Rattle.dev_card.specs.Descriptions.{AreGoodRegisters};
ghost use Rattle.dev_card.specs.Card.{register_with, bypass, held_register};

use crate::bit_copies::fill_bits;
use crate::test_logic::TestLogic;
use bit_list::Bits;
use dev_card::RegDesc;
use std::alloc::{AllocError, Global};
use std::marker::Model;

// What each register holds.
#[derive(Drop)]
pub struct HeldList {
    list: Vec<Bits>,
}

impl Model for HeldList {
    ghost use Rattle.std.specs.Prelude.{List, Bool, length, ◌≤◌};

    ghost Value = { List (List Bool) };

    ghost view = { λ h. h.list.items };

    ghost invariant = { λ h. length h.list.items ≤ 64 };
}

impl HeldList {
    // Zeros, as many as each register has bits.
    pub fn zeros(alloc: Global, registers: &[RegDesc]) -> Result<HeldList, AllocError>
        requires { AreGoodRegisters registers.now }
        ensures { IfOk result (λ h. h ≡ map (λ (r : RegDesc). replicate r.len false) registers.now) }
    {
        let mut list = Vec::new(alloc);
        for i in 0..registers.len() {
            list.push(Bits::zeros(alloc, registers[i].len)?)?;
        }
        Ok(HeldList { list })
    }

    // Each register holds zeros again.
    pub fn clear(&mut self)
        ensures { self.new ≡ map (λ (bits : List Bool). replicate (length bits) false) self.old }
    {
        for i in 0..self.list.len() {
            fill_bits(&mut self.list[i], false);
        }
    }

    pub fn len(&self) -> u32
        ensures { result ≡ length self.now }
    {
        self.list.len() as u32
    }

    pub fn get(&self, k: u32) -> &Bits
        requires { k < length self.now }
        ensures { slice_get self.now k ≡ Some result.now }
    {
        &self.list[k as usize]
    }

    // Register k gets the bits of the data list.
    pub fn store(&mut self, k: u32, logic: &TestLogic)
        requires inside { k < length self.old }
        requires same { (held : List Bool) → slice_get self.old k ≡ Some held →
            length held ≡ length logic.now.dr_list }
        ensures { self.new ≡ slice_set self.old k logic.now.dr_list }
    {
        logic.give_bits(&mut self.list[k as usize]);
    }
}

// The first register with an opcode.
pub fn find_register(registers: &[RegDesc], op: u64) -> Option<u32>
    requires { length registers.now ≤ 64 }
    ensures { MatchOption result (register_with registers.now op 0 ≡ bypass)
        (λ k. (r : RegDesc) × ((slice_get registers.now k ≡ Some r)
        × (register_with registers.now op 0 ≡ held_register k r))) }
{
    for i in 0..registers.len() {
        let register = &registers[i];
        if register.op == op {
            return Some(i as u32);
        }
    }
    None
}
