//! A device of any kind after `fit`.
ghost use Rattle.std.specs.Prelude.{◌≡◌, ◌<◌, ◌≤◌, ◌+◌, ◌*◌, ◌^◌, ◌&&◌, ◌==◌, true, length, slice_get, Some, IfOk};
ghost use Rattle.base.specs.Bits.{bit_value};
ghost use Rattle.tap_states.specs.declared.Tap.TheVariants as taps;
ghost use Rattle.dev_card.specs.Descriptions.{IsGood};
ghost use Rattle.dev_card.specs.Card.{during, entered, step, fresh};
ghost use Rattle.dev_card.specs.Blocks.{card_after_block, card_block};
ghost use Rattle.dev_card.specs.Sound.{is_data_state};
ghost use Rattle.dev_kinds.specs.DataRegisters.{IsFitted, card_with};
ghost use Rattle.dev_kinds.specs.Propositions.{IsFitted-prop};

use crate::data_registers::DataRegisters;
use crate::test_logic::TestLogic;
use bit_list::Bits;
use dev_card::Desc;
use std::alloc::{AllocError, Global};
use tap_states::Tap;

// The test logic that all kinds share, with the data registers of one kind.
#[derive(Drop)]
pub struct FittedDevice<R: DataRegisters> {
    pub logic: TestLogic,
    pub registers: R,
    pub ghost fits: { IsFitted R.own_kind R.longest logic (R.contents registers) } by { IsFitted-prop R.own_kind R.longest logic (R.contents registers) },
}

// What happens in the state from which a clock starts.
fn leave<R: DataRegisters>(logic: &mut TestLogic, registers: &mut R, tdi: bool)
    requires { IsFitted R.own_kind R.longest logic.old (R.contents registers.old) }
    ensures desc { logic.new.desc ≡ logic.old.desc }
    ensures room { logic.new.room ≡ logic.old.room }
    ensures flash { (R.contents registers.new).flash ≡ (R.contents registers.old).flash }
    ensures card { card_with logic.new (R.contents registers.new)
        ≡ during logic.old.tap tdi (card_with logic.old (R.contents registers.old)) }
{
    match logic.tap() {
        Tap::DrCapture => registers.capture(logic),
        Tap::Idle => registers.rest(),
        _ => logic.move_lists(tdi),
    }
}

// What happens on coming to a state.
fn come_to<R: DataRegisters>(logic: &mut TestLogic, registers: &mut R, to: Tap)
    requires fitted { to ≡ taps.DrUpdate → IsFitted R.own_kind R.longest logic.old (R.contents registers.old) }
    requires data { to ≡ taps.DrUpdate → is_data_state logic.old.tap ≡ true }
    ensures desc { logic.new.desc ≡ logic.old.desc }
    ensures room { logic.new.room ≡ logic.old.room }
    ensures flash { (R.contents registers.new).flash ≡ (R.contents registers.old).flash }
    ensures card { card_with logic.new (R.contents registers.new)
        ≡ entered to (card_with logic.old (R.contents registers.old)) }
{
    match to {
        Tap::DrUpdate => {
            registers.update(logic);
            logic.enter(to);
        }
        _ => logic.enter(to),
    }
}

impl<R: DataRegisters> FittedDevice<R> {
    // A device of this description, as it is after power-up.
    pub fn new(alloc: Global, desc: &Desc) -> Result<FittedDevice<R>, AllocError>
        requires good { IsGood desc.now }
        requires kind { desc.now.kind ≡ R.own_kind }
        ensures { IfOk result (λ s. card_with s.logic (R.contents s.registers) ≡ fresh desc.now) }
    {
        let registers = R::new(alloc, desc)?;
        let logic = TestLogic::new(alloc, desc, R::longest_register())?;
        Ok(FittedDevice { logic, registers })
    }

    // The device is as after power-up.
    pub fn blank(&mut self)
        ensures { card_with self.new.logic (R.contents self.new.registers) ≡ fresh self.old.logic.desc }
    {
        self.logic.blank();
        self.registers.blank();
    }

    // One clock.
    pub fn clock(&mut self, tms: bool, tdi: bool)
        ensures { card_with self.new.logic (R.contents self.new.registers)
            ≡ step (card_with self.old.logic (R.contents self.old.registers)) tms tdi }
    {
        let next = self.logic.tap().next(tms);
        leave(&mut self.logic, &mut self.registers, tdi);
        come_to(&mut self.logic, &mut self.registers, next);
    }

    // A block of clocks: at once where a list is shifted, and else one clock after another.
    pub fn shift_block(&mut self, tdi: u64, n: u32, last: bool) -> u64
        requires some { 1 ≤ n }
        requires most { n ≤ 64 }
        ensures card { card_with self.new.logic (R.contents self.new.registers)
            ≡ card_after_block (card_with self.old.logic (R.contents self.old.registers)) tdi n last }
        ensures tdo { result ≡ card_block (card_with self.old.logic (R.contents self.old.registers)) tdi n last }
    {
        match self.logic.shift_block(tdi, n, last) {
            Some(tdo) => tdo,
            None => self.shift_by_clocks(tdi, n, last),
        }
    }

    // A cell; cells are counted from 0.
    pub fn cell(&self, cell: u32) -> &Bits
        requires { cell < length (R.contents self.now.registers).cells }
        ensures { slice_get (R.contents self.now.registers).cells cell ≡ Some result.now }
    {
        match self.registers.cell(cell) {
            Some(bits) => bits,
            None => unreachable!(),
        }
    }

    // Makes the clocks of a block one after another.
    fn shift_by_clocks(&mut self, tdi: u64, n: u32, last: bool) -> u64
        requires { n ≤ 64 }
        ensures card { card_with self.new.logic (R.contents self.new.registers)
            ≡ card_after_block (card_with self.old.logic (R.contents self.old.registers)) tdi n last }
        ensures tdo { result ≡ card_block (card_with self.old.logic (R.contents self.old.registers)) tdi n last }
    {
        let mut rest = tdi;
        let mut seen = 0;
        for i in 0..n {
            let tdo = self.logic.tdo();
            self.clock(ends_at(last, i, n), rest % 2 == 1);
            seen = with_bit(seen, i, tdo);
            rest /= 2;
        }
        seen
    }
}

// TMS at clock i of n: 1 at the last one, where the block is so marked.
fn ends_at(last: bool, i: u32, n: u32) -> bool
    requires { i < n }
    ensures { result ≡ (last && (i + 1 == n)) }
{
    last && i + 1 == n
}

// A number of i bits with a bit above them.
fn with_bit(number: u64, i: u32, bit: bool) -> u64
    requires place { i < 64 }
    requires below { number < 2 ^ i }
    ensures value { result ≡ number + bit_value bit * 2 ^ i }
    ensures below { result < 2 ^ (i + 1) }
{
    let top = if bit { 1u64 << i } else { 0 };
    number + top
}
