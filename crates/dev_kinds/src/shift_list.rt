//! Shift registers in place.
ghost use Rattle.std.specs.Prelude.{◌≡◌, ◌<◌, ◌≤◌, ◌+◌, ◌++◌, ◌^◌, false, [], ◌∷◌, length, IfOk, slice_get, take};
ghost use Rattle.base.specs.Bits.{low_bits};
ghost use Rattle.dev_card.specs.Card.{shifted};

use crate::ring::{give_ring, next_place, pass_through, turn};
use bit_list::Bits;
use std::alloc::{AllocError, Global};
use std::marker::Model;

// A shift register with room for the longest data register of its device. The bits in use stand in a ring, so a shift
// writes one bit and moves none, and a block of 64 bits touches three words at most.
#[derive(Drop)]
pub struct ShiftList {
    ring: Bits,
    // how many bits are in use
    len: u32,
    // where the lowest of them stands
    head: u32,
}

impl Model for ShiftList {
    ghost use Rattle.std.specs.Prelude.{length, ◌<◌, ◌≤◌, take};
    ghost use Rattle.dev_kinds.specs.ShiftRegister.{ShiftRegister, IsRing, rotated};

    ghost Value = { ShiftRegister };

    ghost view = { λ s. record { room = length s.ring; bits = rotated s.head (take s.len s.ring) } };

    ghost invariant = { λ s. IsRing s.head s.len (length s.ring) };
}

impl ShiftList {
    // A list of one 0.
    pub fn new(alloc: Global, room: u32) -> Result<ShiftList, AllocError>
        requires some { 1 ≤ room }
        requires most { room ≤ 65536 }
        ensures { IfOk result (λ s. s ≡ record { room = room; bits = false ∷ [] }) }
    {
        let ring = Bits::zeros(alloc, room)?;
        Ok(ShiftList {
            ring,
            len: 1,
            head: 0,
        })
    }

    // The lowest bit.
    pub fn lowest(&self) -> bool
        ensures { slice_get self.now.bits 0 ≡ Some result }
    {
        self.ring.get(self.head)
    }

    // Loses the lowest bit and gets one as its highest.
    pub fn shift(&mut self, bit: bool)
        ensures { self.new ≡ record self.old { bits = shifted self.old.bits bit } }
    {
        self.ring.set(self.head, bit);
        self.head = next_place(self.head, self.len);
    }

    // Gets the lowest n bits of a number as its highest, and loses as many, which it answers.
    pub fn shift_block(&mut self, number: u64, n: u32) -> u64
        requires { n ≤ 64 }
        ensures bits { self.old.bits ++ low_bits n number ≡ low_bits n result ++ self.new.bits }
        ensures room { self.new.room ≡ self.old.room }
        ensures below { result < 2 ^ n }
    {
        if self.len < n {
            let out = pass_through(&mut self.ring, self.len, self.head, number, n);
            self.head = 0;
            out
        } else {
            let (out, head) = turn(&mut self.ring, self.len, self.head, number, n);
            self.head = head;
            out
        }
    }

    // Becomes a list of one bit.
    pub fn load_bit(&mut self, bit: bool)
        ensures { self.new ≡ record self.old { bits = bit ∷ [] } }
    {
        self.ring.set(0, bit);
        self.len = 1;
        self.head = 0;
    }

    // Becomes these bits.
    pub fn load(&mut self, bits: &Bits)
        requires some { 0 < length bits.now }
        requires room { length bits.now ≤ self.old.room }
        ensures { self.new ≡ record self.old { bits = bits.now } }
    {
        let len = bits.len();
        self.ring.copy_range(0, bits, 0, len);
        self.len = len;
        self.head = 0;
    }

    // Gives its bits to a list of the same length.
    pub fn give(&self, bits: &mut Bits)
        requires { length bits.old ≡ length self.now.bits }
        ensures { bits.new ≡ self.now.bits }
    {
        give_ring(&self.ring, self.len, self.head, bits);
    }

    // Becomes the lowest n bits of a number.
    pub fn load_number(&mut self, number: u64, n: u32)
        requires some { 0 < n }
        requires most { n ≤ 64 }
        requires room { n ≤ self.old.room }
        ensures { self.new ≡ record self.old { bits = low_bits n number } }
    {
        self.ring.set_word(0, n, number);
        self.len = n;
        self.head = 0;
    }
}
