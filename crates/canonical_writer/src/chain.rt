//! Statements that drive the test access port.
#![tactic(auto, using(crate::proofs::WriterLemmas::written_append))]

ghost use Rattle.std.specs.Prelude.{◌≡◌, OnOk};
ghost use Rattle.std.specs.Box.{box_value};
ghost use Rattle.std.specs.Option.{option_map};
ghost use Rattle.stapl_syntax.specs.Parts.{capture_part, compare_part, first_part, last_part, usec_part};
ghost use Rattle.stapl_syntax.specs.Trees.{expr_tree, array_tree, compare_tree, scan_tree};
ghost use Rattle.stapl_syntax.specs.Trees.{stop, pad, state_list, wait_cycles, wait_usec, frequency};
ghost use Rattle.canonical_text.specs.PrintedStatements.{part_tokens, body_tokens};
ghost use Rattle.canonical_writer.specs.Written.{written};

use crate::writer::Writer;
use stapl_lexer::{JoinWord, Mark, Padding, PortWord, Register};
use stapl_syntax::{ArrayExpr, Compare, Expr, Scan};
use std::alloc::AllocError;

impl Writer {
    // What a scan captures.
    fn put_capture(&mut self, target: &Option<Box<ArrayExpr>>) -> Result<(), AllocError>
        ensures { OnOk result (self.new ≡ written self.old
            (part_tokens capture_part (option_map (λ a. array_tree (box_value a)) target.now))) }
    {
        if let Some(target) = target {
            self.put_mark(Mark::Comma)?;
            self.put_join(JoinWord::Capture)?;
            self.put_array(target)?;
        }
        Ok(())
    }

    // What a scan compares with.
    fn put_compare(&mut self, compare: &Option<Box<Compare>>) -> Result<(), AllocError>
        ensures { OnOk result (self.new ≡ written self.old
            (part_tokens compare_part (option_map (λ c. compare_tree (box_value c)) compare.now))) }
    {
        if let Some(compare) = compare {
            self.put_mark(Mark::Comma)?;
            self.put_join(JoinWord::Compare)?;
            self.put_array(&compare.expected)?;
            self.put_mark(Mark::Comma)?;
            self.put_array(&compare.mask)?;
            self.put_mark(Mark::Comma)?;
            self.put_value(&compare.cell)?;
        }
        Ok(())
    }

    /// DRSCAN, IRSCAN.
    pub(crate) fn put_scan(&mut self, scan: &Scan) -> Result<(), AllocError>
        ensures { OnOk result (self.new ≡ written self.old (body_tokens (scan_tree scan.now))) }
    {
        self.put_port(PortWord::Scan(scan.register))?;
        self.put_value(&scan.length)?;
        self.put_mark(Mark::Comma)?;
        self.put_array(&scan.source)?;
        self.put_capture(&scan.target)?;
        self.put_compare(&scan.compare)
    }

    /// DRSTOP, IRSTOP.
    pub(crate) fn put_stop(&mut self, register: Register, state: u8) -> Result<(), AllocError>
        ensures { OnOk result (self.new ≡ written self.old (body_tokens (stop register state))) }
    {
        self.put_port(PortWord::Stop(register))?;
        self.put_state(state)
    }

    /// PREDR, POSTDR, PREIR, POSTIR: the length, and the bits.
    pub(crate) fn put_pad(
        &mut self,
        padding: Padding,
        length: &Expr,
        bits: &Option<Box<ArrayExpr>>,
    ) -> Result<(), AllocError>
        ensures { OnOk result (self.new ≡ written self.old
            (body_tokens (pad padding (expr_tree length.now) (option_map (λ a. array_tree (box_value a)) bits.now)))) }
    {
        self.put_port(PortWord::Pad(padding))?;
        self.put_value(length)?;
        if let Some(bits) = bits {
            self.put_mark(Mark::Comma)?;
            self.put_array(bits)?;
        }
        Ok(())
    }

    /// STATE: the states to go through.
    pub(crate) fn put_states(&mut self, states: &[u8]) -> Result<(), AllocError>
        ensures { OnOk result (self.new ≡ written self.old (body_tokens (state_list states.now))) }
    {
        self.put_port(PortWord::State)?;
        self.put_list(states)
    }

    // The state in which to wait.
    fn put_first_state(&mut self, state: Option<u8>) -> Result<(), AllocError>
        ensures { OnOk result (self.new ≡ written self.old (part_tokens first_part state)) }
    {
        if let Some(state) = state {
            self.put_state(state)?;
            self.put_mark(Mark::Comma)?;
        }
        Ok(())
    }

    // The state to go to after a wait.
    fn put_last_state(&mut self, state: Option<u8>) -> Result<(), AllocError>
        ensures { OnOk result (self.new ≡ written self.old (part_tokens last_part state)) }
    {
        if let Some(state) = state {
            self.put_mark(Mark::Comma)?;
            self.put_state(state)?;
        }
        Ok(())
    }

    // The time of a wait that has cycles, too.
    fn put_time(&mut self, usec: &Option<Box<Expr>>) -> Result<(), AllocError>
        ensures { OnOk result (self.new ≡ written self.old
            (part_tokens usec_part (option_map (λ e. expr_tree (box_value e)) usec.now))) }
    {
        if let Some(usec) = usec {
            self.put_mark(Mark::Comma)?;
            self.put_value(usec)?;
            self.put_join(JoinWord::Usec)?;
        }
        Ok(())
    }

    /// WAIT for cycles, and for a time: where to wait, how many cycles, how many microseconds, and where to go then.
    pub(crate) fn put_wait_cycles(
        &mut self,
        state: Option<u8>,
        cycles: &Expr,
        usec: &Option<Box<Expr>>,
        last: Option<u8>,
    ) -> Result<(), AllocError>
        ensures { OnOk result (self.new ≡ written self.old (body_tokens
            (wait_cycles state (expr_tree cycles.now) (option_map (λ e. expr_tree (box_value e)) usec.now) last))) }
    {
        self.put_port(PortWord::Wait)?;
        self.put_first_state(state)?;
        self.put_value(cycles)?;
        self.put_join(JoinWord::Cycles)?;
        self.put_time(usec)?;
        self.put_last_state(last)
    }

    /// WAIT for a time alone: where to wait, how many microseconds, and where to go then.
    pub(crate) fn put_wait_usec(
        &mut self,
        state: Option<u8>,
        usec: &Expr,
        last: Option<u8>,
    ) -> Result<(), AllocError>
        ensures { OnOk result (self.new ≡ written self.old (body_tokens (wait_usec state (expr_tree usec.now) last))) }
    {
        self.put_port(PortWord::Wait)?;
        self.put_first_state(state)?;
        self.put_value(usec)?;
        self.put_join(JoinWord::Usec)?;
        self.put_last_state(last)
    }

    /// FREQUENCY.
    pub(crate) fn put_frequency(&mut self, hertz: &Option<Box<Expr>>) -> Result<(), AllocError>
        ensures { OnOk result (self.new ≡ written self.old
            (body_tokens (frequency (option_map (λ e. expr_tree (box_value e)) hertz.now)))) }
    {
        self.put_port(PortWord::Frequency)?;
        if let Some(hertz) = hertz {
            self.put_value(hertz)?;
            self.put_hz()?;
        }
        Ok(())
    }
}
