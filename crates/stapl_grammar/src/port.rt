//! Statements that drive the test access port.
use crate::cursor::Cursor;
use crate::refused::Refused;
use stapl_lexer::{JoinWord, Mark, Padding, PortWord, Register};
use stapl_syntax::{ArrayExpr, Body, Compare, Expr, Scan};
use std::alloc::Global;

impl<'a> Cursor<'a> {
    ghost use Rattle.std.specs.Prelude.{◌≡◌};
    ghost use Rattle.std.specs.Option.{option_map};
    ghost use Rattle.std.specs.Box.{box_value};
    ghost use Rattle.stapl_syntax.specs.Trees.{expr_tree, array_tree, compare_tree, body_tree, frequency};
    ghost use Rattle.stapl_syntax.specs.Parts.{an_array, a_cell, after, both, comma, join, capture_part, compared_part, compare_part, scan_part, pad_part, last_part, usec_part, first_part, frequency_part};
    ghost use Rattle.stapl_lexer.specs.declared.terminal.JoinWord.TheVariants as joins;
    ghost use Rattle.stapl_grammar.specs.Given.{Gives};
    ghost use Rattle.stapl_grammar.specs.PartReading.{part_at};
    ghost use Rattle.stapl_grammar.specs.BodyReading.{mapped, scan_of, pad_of, wait_of, wait_part, port_from};

    // ["," CAPTURE target]
    #[tactic(auto, unfolding(crate::specs::PartReading::part_at, crate::specs::Looks::after_comma_join))]
    fn capture(&mut self, alloc: Global) -> Result<Option<Box<ArrayExpr>>, Refused>
        ensures { Gives (λ a. (option_map (λ a. array_tree (box_value a)) a, self.new)) result (part_at capture_part self.old) }
    {
        if !self.take_comma_join(JoinWord::Capture) {
            return Ok(None);
        }
        let target = self.target(alloc)?;
        Ok(Some(Box::new(alloc, target)?))
    }

    // "," array "," cell
    #[tactic(auto, unfolding(crate::specs::PartReading::part_at))]
    fn mask_and_cell(&mut self, alloc: Global) -> Result<(ArrayExpr, Expr), Refused>
        ensures { Gives (λ x. ((array_tree x.0, expr_tree x.1), self.new)) result
            (part_at (after comma (both an_array (after comma a_cell))) self.old) }
    {
        self.expect_mark(Mark::Comma)?;
        let mask = self.array(alloc)?;
        self.expect_mark(Mark::Comma)?;
        let cell = self.cell(alloc)?;
        Ok((mask, cell))
    }

    // array "," array "," cell
    #[tactic(auto, unfolding(crate::specs::PartReading::part_at))]
    fn compare_parts(&mut self, alloc: Global) -> Result<Compare, Refused>
        ensures { Gives (λ c. (compare_tree c, self.new)) result (part_at compared_part self.old) }
    {
        let expected = self.array(alloc)?;
        let (mask, cell) = self.mask_and_cell(alloc)?;
        Ok(Compare {
            expected,
            mask,
            cell,
        })
    }

    // ["," COMPARE array "," array "," cell]
    #[tactic(auto, unfolding(crate::specs::PartReading::part_at, crate::specs::Looks::after_comma_join))]
    fn compare(&mut self, alloc: Global) -> Result<Option<Box<Compare>>, Refused>
        ensures { Gives (λ c. (option_map (λ c. compare_tree (box_value c)) c, self.new)) result (part_at compare_part self.old) }
    {
        if !self.take_comma_join(JoinWord::Compare) {
            return Ok(None);
        }
        let parts = self.compare_parts(alloc)?;
        Ok(Some(Box::new(alloc, parts)?))
    }

    // ["," CAPTURE target] ["," COMPARE array "," array "," cell]
    #[tactic(auto, unfolding(crate::specs::PartReading::part_at))]
    fn captures(
        &mut self,
        alloc: Global,
    ) -> Result<(Option<Box<ArrayExpr>>, Option<Box<Compare>>), Refused>
        ensures { Gives (λ x. (
          (
            option_map (λ a. array_tree (box_value a)) x.0,
            option_map (λ c. compare_tree (box_value c)) x.1,
          ),
          self.new,
        )) result
            (part_at (both capture_part compare_part) self.old) }
    {
        let target = self.capture(alloc)?;
        let compare = self.compare(alloc)?;
        Ok((target, compare))
    }

    // (DRSCAN | IRSCAN) expr "," array ["," CAPTURE target] ["," COMPARE array "," array "," cell]
    #[tactic(auto, unfolding(crate::specs::PartReading::part_at))]
    fn scan(&mut self, alloc: Global, register: Register) -> Result<Body, Refused>
        ensures { Gives (λ b. (body_tree b, self.new)) result (mapped (scan_of register) (part_at scan_part self.old)) }
    {
        let length = self.expr(alloc)?;
        self.expect_mark(Mark::Comma)?;
        let source = self.array(alloc)?;
        let (target, compare) = self.captures(alloc)?;
        let scan = Scan {
            register,
            length,
            source,
            target,
            compare,
        };
        Ok(Body::Scan(Box::new(alloc, scan)?))
    }

    // (PREDR | POSTDR | PREIR | POSTIR) expr ["," array]
    #[tactic(auto, unfolding(crate::specs::PartReading::part_at))]
    fn pad(&mut self, alloc: Global, padding: Padding) -> Result<Body, Refused>
        ensures { Gives (λ b. (body_tree b, self.new)) result (mapped (pad_of padding) (part_at pad_part self.old)) }
    {
        let count = self.boxed_expr(alloc)?;
        if !self.take_mark(Mark::Comma) {
            return Ok(Body::Pad(padding, count, None));
        }
        let bits = self.boxed_array(alloc)?;
        Ok(Body::Pad(padding, count, Some(bits)))
    }

    // [state ","]
    #[tactic(auto, unfolding(crate::specs::PartReading::part_at))]
    fn first_state(&mut self) -> Result<Option<u8>, Refused>
        ensures { Gives (λ k. (k, self.new)) result (part_at first_part self.old) }
    {
        if !self.begins_state() {
            return Ok(None);
        }
        let state = self.state()?;
        self.expect_mark(Mark::Comma)?;
        Ok(Some(state))
    }

    // ["," state]
    #[tactic(auto, unfolding(crate::specs::PartReading::part_at))]
    fn last_state(&mut self) -> Result<Option<u8>, Refused>
        ensures { Gives (λ k. (k, self.new)) result (part_at last_part self.old) }
    {
        if !self.take_mark(Mark::Comma) {
            return Ok(None);
        }
        let state = self.state()?;
        Ok(Some(state))
    }

    // ["," expr USEC]
    #[tactic(auto, unfolding(crate::specs::PartReading::part_at))]
    fn usec(&mut self, alloc: Global) -> Result<Option<Box<Expr>>, Refused>
        ensures { Gives (λ e. (option_map (λ e. expr_tree (box_value e)) e, self.new)) result (part_at usec_part self.old) }
    {
        if !self.begins_count() {
            return Ok(None);
        }
        self.expect_mark(Mark::Comma)?;
        let count = self.boxed_expr(alloc)?;
        self.expect_join(JoinWord::Usec)?;
        Ok(Some(count))
    }

    // USEC ["," state]
    #[tactic(auto, unfolding(crate::specs::PartReading::part_at))]
    fn usec_and_last(&mut self) -> Result<Option<u8>, Refused>
        ensures { Gives (λ k. (k, self.new)) result (part_at (after (join joins.Usec) last_part) self.old) }
    {
        self.expect_join(JoinWord::Usec)?;
        let last = self.last_state()?;
        Ok(last)
    }

    // WAIT [state ","] expr, and then CYCLES ["," expr USEC] ["," state] | USEC ["," state]
    #[tactic(auto, unfolding(crate::specs::PartReading::part_at))]
    fn wait(&mut self, alloc: Global) -> Result<Body, Refused>
        ensures { Gives (λ b. (body_tree b, self.new)) result (mapped wait_of (part_at wait_part self.old)) }
    {
        let first = self.first_state()?;
        let count = self.expr(alloc)?;
        if self.take_join(JoinWord::Cycles) {
            let count = Box::new(alloc, count)?;
            let usec = self.usec(alloc)?;
            let last = self.last_state()?;
            return Ok(Body::WaitCycles(first, count, usec, last));
        }
        let last = self.usec_and_last()?;
        Ok(Body::WaitUsec(first, count, last))
    }

    // FREQUENCY [expr [HZ]]
    #[tactic(auto, unfolding(crate::specs::PartReading::part_at))]
    fn frequency(&mut self, alloc: Global) -> Result<Body, Refused>
        ensures { Gives (λ b. (body_tree b, self.new)) result (mapped frequency (part_at frequency_part self.old)) }
    {
        if !self.begins_anything() {
            return Ok(Body::Frequency(None));
        }
        let count = self.boxed_expr(alloc)?;
        self.pass_hz();
        Ok(Body::Frequency(Some(count)))
    }

    // A statement that drives the test access port, after its first word.
    #[tactic(auto, unfolding(crate::specs::BodyReading::port_from, crate::specs::PartReading::part_at))]
    pub(crate) fn port_statement(&mut self, alloc: Global, word: PortWord) -> Result<Body, Refused>
        ensures { Gives (λ b. (body_tree b, self.new)) result (port_from word self.old) }
    {
        match word {
            PortWord::Scan(register) => self.scan(alloc, register),
            PortWord::Stop(register) => {
                let state = self.state()?;
                Ok(Body::Stop(register, state))
            }
            PortWord::Pad(padding) => self.pad(alloc, padding),
            PortWord::State => {
                let states = self.states(alloc)?;
                Ok(Body::State(states))
            }
            PortWord::Wait => self.wait(alloc),
            PortWord::Frequency => self.frequency(alloc),
        }
    }
}
