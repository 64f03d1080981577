//! What a kind of device adds to the test logic.
ghost use Rattle.std.specs.Prelude.{◌≡◌, ◌≤◌, ℕ, true, length, slice_get, IfOk};
ghost use Rattle.std.specs.Option.{option_map};
ghost use Rattle.dev_card.specs.declared.desc.Kind.{Kind};
ghost use Rattle.dev_card.specs.Descriptions.{IsGood};
ghost use Rattle.dev_card.specs.Card.{captured, selected};
ghost use Rattle.dev_card.specs.Sound.{is_data_state};
ghost use Rattle.dev_kinds.specs.Logic.{Logic};
ghost use Rattle.dev_kinds.specs.DataRegisters.{RegisterContents, IsFitted, card_with};
ghost use Rattle.dev_kinds.specs.DataRegisters.{fresh_contents, updated_contents, rested_contents};

use crate::test_logic::TestLogic;
use bit_list::Bits;
use dev_card::{Desc, Kind};
use std::alloc::{AllocError, Global};

// The data registers of a device of one kind, and what they hold. Contracts see the kind, the length of the longest
// register that a good description of the kind can have, and the contents.
pub trait DataRegisters: Drop {
    ghost own_kind: { Kind };

    ghost longest: { ℕ };

    ghost contents: { Self → RegisterContents };

    // The kind of a device that has these registers.
    fn kind() -> Kind
        ensures { result ≡ own_kind };

    // The length of the longest register of the kind.
    fn longest_register() -> u32
        ensures value { result ≡ longest }
        ensures least { 32 ≤ result }
        ensures most { result ≤ 65536 };

    // The registers of a description after power-up. No other call takes memory.
    fn new(alloc: Global, desc: &Desc) -> Result<Self, AllocError>
        requires good { IsGood desc.now }
        requires kind { desc.now.kind ≡ own_kind }
        ensures { IfOk result (λ r. contents r ≡ fresh_contents desc.now) };

    // The registers are as after power-up.
    fn blank(&mut self)
        ensures { (k : Logic) → IsFitted own_kind longest k (contents self.old) →
            contents self.new ≡ fresh_contents k.desc };

    // The data list captures what the selected register gives.
    fn capture(&mut self, logic: &mut TestLogic)
        requires { IsFitted own_kind longest logic.old (contents self.old) }
        ensures same { contents self.new ≡ contents self.old }
        ensures captured { let card = card_with logic.old (contents self.old) in
            logic.new ≡ record logic.old { dr_list = captured card (selected card) } };

    // The selected register is updated with the data list, which was captured by it.
    fn update(&mut self, logic: &TestLogic)
        requires fitted { IsFitted own_kind longest logic.now (contents self.old) }
        requires data { is_data_state logic.now.tap ≡ true }
        ensures { contents self.new ≡ updated_contents logic.now (contents self.old) };

    // A clock in the idle state.
    fn rest(&mut self)
        ensures { contents self.new ≡ rested_contents (contents self.old) };

    // How many cells the registers have.
    fn cell_count(&self) -> u32
        ensures { result ≡ length (contents self.now).cells };

    // The cell of this number, counted from 0, if there is one.
    fn cell(&self, cell: u32) -> Option<&Bits>
        ensures { option_map (λ bits. bits.now) result ≡ slice_get (contents self.now).cells cell };
}
