//! The interface of a boxed device.
ghost use Rattle.std.specs.Prelude.{◌≡◌, ◌≢◌, ◌<◌, ◌≤◌, ◌+◌, ◌↔◌, length, Option, Some, None, IsSome, IsSomeAnd, IsErrOf, OnOk, OnErr};
ghost use Rattle.std.specs.Option.{option_map};
ghost use Rattle.base.specs.Bits.{number_of};
ghost use Rattle.bit_list.specs.Ranges.{taken};
ghost use Rattle.dev_card.specs.declared.desc.Kind.{Kind};
ghost use Rattle.dev_card.specs.Descriptions.{IsGood};
ghost use Rattle.dev_card.specs.Card.{fresh, tdo_of, step, cell_of, bit_of};
ghost use Rattle.dev_card.specs.Blocks.{card_after_block, card_block};
ghost use Rattle.dev_card.specs.Sound.{SoundCard, card_in};

use crate::desc::{Desc, Kind};
use std::alloc::Global;
use thiserror::Error;

/// Why a device was not fitted: `WrongKind` where the description is of another kind than the device, `Memory` where
/// there was no memory.
#[derive(Clone, Copy, Debug, PartialEq, Eq, Error)]
pub enum FitRefused {
    #[error("the description is of another kind than the device")]
    WrongKind,
    #[error("out of memory")]
    Memory,
}

/// A device that can be put on a chain.
///
/// To contracts it is unfitted (`None`), or a card that is sound: each of its lists has the length that its description
/// gives. Only `fit` takes memory.
pub trait Device: Drop {
    ghost fitted: { Self → Option SoundCard };

    ghost kind_of: { Self → Kind };

    /// The kind of the device, which no call changes.
    fn kind(&self) -> Kind
        ensures { result ≡ kind_of self.now };

    /// Makes the device one of this description, as it is after power-up: in reset, and with nothing held but what the
    /// description says.
    ///
    /// `WrongKind` comes exactly where the description is of another kind than the device, and `Memory` only for want
    /// of memory. A device that was refused is unfitted.
    fn fit(&mut self, alloc: Global, desc: &Desc) -> Result<(), FitRefused>
        requires { IsGood desc.now }
        ensures kind { kind_of self.new ≡ kind_of self.old }
        ensures ok { OnOk result (card_in (fitted self.new) ≡ Some (fresh desc.now)) }
        ensures same_kind { OnOk result (desc.now.kind ≡ kind_of self.old) }
        ensures wrong_kind { IsErrOf result FitRefused.WrongKind ↔ (desc.now.kind ≢ kind_of self.old) }
        ensures unfitted { OnErr result (card_in (fitted self.new) ≡ None) };

    /// Brings the device back to what `fit` left.
    fn blank(&mut self)
        requires { IsSome (card_in (fitted self.old)) }
        ensures kind { kind_of self.new ≡ kind_of self.old }
        ensures card { card_in (fitted self.new) ≡ option_map (λ c. fresh c.desc) (card_in (fitted self.old)) };

    /// TDO, as it is before the next clock: the lowest bit of what is shifted, and true outside the shift states.
    fn tdo(&self) -> bool
        requires { IsSome (card_in (fitted self.now)) }
        ensures { option_map tdo_of (card_in (fitted self.now)) ≡ Some result };

    /// One clock with these values at TMS and TDI (IEEE 1149.1, test logic).
    fn clock(&mut self, tms: bool, tdi: bool)
        requires { IsSome (card_in (fitted self.old)) }
        ensures kind { kind_of self.new ≡ kind_of self.old }
        ensures card { card_in (fitted self.new) ≡ option_map (λ c. step c tms tdi) (card_in (fitted self.old)) };

    /// n clocks as one call, in any state of the controller: with the lowest n bits of `tdi`, the lowest first, and
    /// with TMS 0, but TMS 1 at the last of them where `last` is true. It answers the TDO bits before these clocks, the
    /// first one as the lowest, with zeros above. It takes no memory, and refuses nothing.
    fn shift_block(&mut self, tdi: u64, n: u32, last: bool) -> u64
        requires fitted { IsSome (card_in (fitted self.old)) }
        requires some { 1 ≤ n }
        requires most { n ≤ 64 }
        ensures kind { kind_of self.new ≡ kind_of self.old }
        ensures card { card_in (fitted self.new)
            ≡ option_map (λ c. card_after_block c tdi n last) (card_in (fitted self.old)) }
        ensures tdo { option_map (λ c. card_block c tdi n last) (card_in (fitted self.old)) ≡ Some result };

    /// The opcode of the instruction in force.
    fn instruction(&self) -> u64
        requires { IsSome (card_in (fitted self.now)) }
        ensures { option_map (λ c. c.instruction) (card_in (fitted self.now)) ≡ Some result };

    /// How many cells the device has: the registers of a `Regs`, the address and the words of a `Flash`.
    fn cells(&self) -> u32
        requires { IsSome (card_in (fitted self.now)) }
        ensures { option_map (λ c. length c.cells) (card_in (fitted self.now)) ≡ Some result };

    /// The length of a cell in bits; cells are counted from 0.
    fn cell_len(&self, cell: u32) -> u32
        requires { IsSomeAnd (card_in (fitted self.now)) (λ c. cell < length c.cells) }
        ensures { option_map (λ c. length (cell_of c cell)) (card_in (fitted self.now)) ≡ Some result };

    /// A bit of a cell; bits are counted from 0, the bit of lowest value.
    fn cell_bit(&self, cell: u32, bit: u32) -> bool
        requires { IsSomeAnd (card_in (fitted self.now))
            (λ c. (cell < length c.cells) × (bit < length (cell_of c cell))) }
        ensures { option_map (λ c. bit_of c cell bit) (card_in (fitted self.now)) ≡ Some result };

    /// The n bits of a cell from bit `at` on, of which there are at most 64, as a number.
    fn cell_word(&self, cell: u32, at: u32, n: u32) -> u64
        requires most { n ≤ 64 }
        requires inside { IsSomeAnd (card_in (fitted self.now))
            (λ c. (cell < length c.cells) × (at + n ≤ length (cell_of c cell))) }
        ensures { option_map (λ c. number_of (taken at n (cell_of c cell))) (card_in (fitted self.now))
            ≡ Some result };
}
