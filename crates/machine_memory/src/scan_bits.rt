//! The bits of scans, in memory that is taken at once.
ghost use Rattle.std.specs.Prelude.{◌≡◌, ◌≤◌, ◌+◌, ◌++◌, ◌↔◌, [], true, false, IfOk, IsTrue, length, replicate, take};
ghost use Rattle.bit_list.specs.Integers.{bits_of_int};
ghost use Rattle.bit_list.specs.Ranges.{AgreeUnderMask};
ghost use Rattle.stapl_meaning.specs.Scans.{scan_limit};
ghost use Rattle.machine_memory.specs.Arrays.{first_bits};

use crate::part_bits::{copy_turned, first_places};
use crate::parts::Span;
use bit_list::Bits;
use std::alloc::{AllocError, Global};
use std::marker::Model;

/// The most bits of a scan without its paddings.
pub const SCAN_LIMIT: u32 = 4_194_304;

/// A list of bits: the lowest ones of a longer list, which has room for the longest scan.
#[derive(Drop)]
pub struct ScanBits {
    pub room: Bits,
    pub count: u32,
}

impl Model for ScanBits {
    ghost use Rattle.std.specs.Prelude.{Bool, List, take};
    ghost use Rattle.machine_memory.specs.Rooms.{IsScanRoom};

    ghost Value = { List Bool };

    ghost view = { λ s. take s.count s.room };

    ghost invariant = { λ s. IsScanRoom s.count s.room };
}

impl ScanBits {
    /// No bit, and the memory for the longest scan.
    pub fn new(alloc: Global) -> Result<ScanBits, AllocError>
        ensures { IfOk result (λ s. s ≡ []) }
    {
        let room = Bits::zeros(alloc, SCAN_LIMIT)?;
        Ok(ScanBits { room, count: 0 })
    }

    /// How many bits there are.
    pub fn len(&self) -> u32
        ensures { result ≡ length self.now }
    {
        self.count
    }

    /// Becomes so many bits, whatever they are.
    pub fn resize(&mut self, n: u32)
        requires { n ≤ scan_limit }
        ensures { length self.new ≡ n }
    {
        self.count = n;
    }

    /// The list of which these are the lowest bits.
    pub fn as_bits(&self) -> &Bits
        ensures own { take (length self.now) result.now ≡ self.now }
        ensures inside { length self.now ≤ length result.now }
    {
        &self.room
    }

    /// Becomes the first n bits of a part of a list.
    pub fn take_part(&mut self, from: &Bits, span: Span, n: u32)
        requires few { n ≤ scan_limit }
        requires enough { n ≤ span.count }
        requires inside { span.low + span.count ≤ length from.now }
        ensures { self.new ≡ first_bits n span from.now }
    {
        let low = first_places(from, span, n);
        copy_turned(&mut self.room, 0, from, low, n, span.falls);
        self.count = n;
    }

    /// Becomes the lowest n bits of a list, and 0 where it has none.
    #[tactic(auto, using(crate::proofs::RoomLemmas::front_replaced))]
    pub fn take_padded(&mut self, from: &Bits, n: u32)
        requires { n ≤ scan_limit }
        ensures { self.new ≡ take n (from.now ++ replicate n false) }
    {
        self.room.copy_padded(0, from, n);
        self.count = n;
    }

    /// Becomes the lowest n bits of an integer in two's complement.
    pub fn take_integer(&mut self, value: i32, n: u32)
        requires { n ≤ 32 }
        ensures { self.new ≡ take n (bits_of_int value) }
    {
        self.room.set_low_bits(0, value, n);
        self.count = n;
    }

    /// Becomes n ones.
    #[tactic(auto, using(crate::proofs::RoomLemmas::front_replaced))]
    pub fn take_ones(&mut self, n: u32)
        requires { n ≤ scan_limit }
        ensures { self.new ≡ replicate n true }
    {
        self.room.fill_range(0, n, true);
        self.count = n;
    }

    /// Whether they agree with others under a mask.
    pub fn agrees_under(&self, mask: &ScanBits, other: &ScanBits) -> bool
        requires mask { length mask.now ≡ length self.now }
        requires other { length other.now ≡ length self.now }
        ensures { IsTrue result ↔ AgreeUnderMask mask.now (length self.now) self.now other.now }
    {
        self.room
            .masked_equal(other.as_bits(), mask.as_bits(), self.count)
    }
}
