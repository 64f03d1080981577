//! The instructions of statements that move the chain, wait on it, or state its frequency.
ghost use Rattle.std.specs.Prelude.{◌≡◌, map, option_map, is_some, OnOk, IfOk};
ghost use Rattle.std.specs.Box.{box_value};
ghost use Rattle.stapl_syntax.specs.Trees.{ExprTree, state_list, wait_cycles, wait_usec, frequency, expr_tree};
ghost use Rattle.stapl_meaning.specs.Turns.{tap_of, tap_or_idle, kind_of_wait, integer_given};
ghost use Rattle.stapl_codegen.specs.Drafts.{with_code, operands_code_in, body_code_in};

use crate::emit::Emitter;
use base::ItemList;
use stapl_code::Instr;
use stapl_meaning::{ValueKind, WaitKind};
use stapl_syntax::Expr;
use std::alloc::{AllocError, Global};
use tap_states::Tap;

/// The state of a number; no program has a number above 15.
#[tactic(auto, using(crate::proofs::Taps::tap_of_number, crate::proofs::Taps::no_tap))]
pub(crate) fn tap(number: u8) -> Tap
    ensures { result ≡ tap_of number }
{
    if number < 16 {
        Tap::from_number(number)
    } else {
        Tap::Reset
    }
}

// The states of these numbers.
fn taps(alloc: Global, numbers: &[u8]) -> Result<Vec<Tap>, AllocError>
    ensures { IfOk result (λ taps. taps.items ≡ map tap_of numbers.now) }
{
    let mut list = Vec::new(alloc);
    for number in numbers {
        list.push(tap(*number))?;
    }
    Ok(list)
}

// The state of a WAIT, which is IDLE if none is written.
fn tap_or_idle(number: Option<u8>) -> Tap
    ensures { result ≡ tap_or_idle number }
{
    match number {
        Some(number) => tap(number),
        None => Tap::Idle,
    }
}

// What a WAIT for clocks counts, with a time or without one.
fn kind_of_wait(usec: &Option<Box<Expr>>) -> WaitKind
    ensures { result ≡ kind_of_wait (option_map (λ e. expr_tree (box_value e)) usec.now) }
{
    match usec {
        Some(_) => WaitKind::Both,
        None => WaitKind::Cycles,
    }
}

// Whether an expression that may be left out is there.
fn is_given(e: &Option<Box<Expr>>) -> bool
    ensures { result ≡ is_some (option_map (λ e. expr_tree (box_value e)) e.now) }
{
    match e {
        Some(_) => true,
        None => false,
    }
}

impl<'a> Emitter<'a> {
    // An integer that may be left out more.
    fn given(&mut self, e: &Option<Box<Expr>>) -> Result<(), AllocError>
        ensures { OnOk result (self.new ≡ with_code self.old (operands_code_in self.old
            (integer_given (option_map (λ e. expr_tree (box_value e)) e.now)))) }
    {
        match e {
            Some(e) => self.expr(ValueKind::Int, e),
            None => Ok(()),
        }
    }

    /// A STATE more.
    pub(crate) fn state(&mut self, numbers: &[u8]) -> Result<(), AllocError>
        ensures { OnOk result (self.new ≡ with_code self.old (body_code_in self.old (state_list numbers.now))) }
    {
        let list = taps(self.alloc, numbers)?;
        self.put(Instr::State(ItemList::of(list)))?;
        Ok(())
    }

    /// A WAIT for clocks more, and perhaps for a time.
    #[tactic(auto, using(crate::proofs::Lists::expr_before, crate::proofs::Lists::operands_before, std::proofs::Common::append_assoc))]
    pub(crate) fn wait_cycles(
        &mut self,
        state: Option<u8>,
        cycles: &Expr,
        usec: &Option<Box<Expr>>,
        last: Option<u8>,
    ) -> Result<(), AllocError>
        ensures { OnOk result (self.new ≡ with_code self.old (body_code_in self.old
            (wait_cycles state (expr_tree cycles.now) (option_map (λ e. expr_tree (box_value e)) usec.now) last))) }
    {
        self.expr(ValueKind::Int, cycles)?;
        self.given(usec)?;
        self.put(Instr::Wait(tap_or_idle(state), kind_of_wait(usec), tap_or_idle(last)))?;
        Ok(())
    }

    /// A WAIT for a time alone more.
    #[tactic(auto, using(crate::proofs::Lists::expr_before, std::proofs::Common::append_assoc))]
    pub(crate) fn wait_usec(
        &mut self,
        state: Option<u8>,
        usec: &Expr,
        last: Option<u8>,
    ) -> Result<(), AllocError>
        ensures { OnOk result (self.new ≡
            with_code self.old (body_code_in self.old (wait_usec state (expr_tree usec.now) last))) }
    {
        self.expr(ValueKind::Int, usec)?;
        self.put(Instr::Wait(tap_or_idle(state), WaitKind::Usec, tap_or_idle(last)))?;
        Ok(())
    }

    /// A FREQUENCY more.
    #[tactic(auto, using(crate::proofs::Lists::operands_before, std::proofs::Common::append_assoc))]
    pub(crate) fn frequency(&mut self, hertz: &Option<Box<Expr>>) -> Result<(), AllocError>
        ensures { OnOk result (self.new ≡ with_code self.old (body_code_in self.old
            (frequency (option_map (λ e. expr_tree (box_value e)) hertz.now)))) }
    {
        self.given(hertz)?;
        self.put(Instr::Frequency(is_given(hertz)))?;
        Ok(())
    }
}
