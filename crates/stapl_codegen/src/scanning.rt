//! The instructions of scans, of paddings, and of the states in which scans end.
ghost use Rattle.std.specs.Prelude.{◌≡◌, ◌++◌, option_map, Some, length, OnOk, IfOk};
ghost use Rattle.std.specs.Box.{box_value};
ghost use Rattle.stapl_syntax.specs.Trees.{stop, pad, expr_tree, array_tree, compare_tree, scan_tree};
ghost use Rattle.stapl_codegen.specs.Emit.{past, array_literals, given_literals, compare_literals, row_literals, source_code};
ghost use Rattle.stapl_codegen.specs.Drafts.{scope_of_site, with_code, with_literals, operands_code_in, array_operands_in, source_in, given_operands_in, given_in, target_operands_in, target_in, compare_operands_in, compare_in, body_code_in};

use crate::chain::tap;
use crate::emit::Emitter;
use stapl_code::{Cell, Compare, Dest, Instr, Scan, Source};
use stapl_lexer::{Padding, Register};
use stapl_meaning::ValueKind;
use stapl_syntax::{ArrayExpr, Expr};
use std::alloc::AllocError;

impl<'a> Emitter<'a> {
    // The operands of an array that may be left out more, and where its bits come from.
    fn given_source(&mut self, a: &Option<Box<ArrayExpr>>) -> Result<Option<Source>, AllocError>
        ensures drafted { OnOk result (self.new ≡ with_literals (with_code self.old
            (operands_code_in self.old (given_operands_in self.old (option_map (λ a. array_tree (box_value a)) a.now))))
            (given_literals (option_map (λ a. array_tree (box_value a)) a.now))) }
        ensures source { IfOk result
            (λ source. source ≡ given_in self.old (option_map (λ a. array_tree (box_value a)) a.now)) }
    {
        match a {
            Some(a) => Ok(Some(self.source(a)?)),
            None => Ok(None),
        }
    }

    // The indexes of an array that takes captured bits more, and where they go.
    fn target(&mut self, a: &ArrayExpr) -> Result<Option<Dest>, AllocError>
        ensures drafted { OnOk result (self.new ≡
            with_code self.old (operands_code_in self.old (target_operands_in self.old (Some (array_tree a.now))))) }
        ensures target { IfOk result (λ target. target ≡ target_in self.old (Some (array_tree a.now))) }
    {
        match a {
            ArrayExpr::Whole(name) => Ok(Some(Dest::Whole(self.variable(name)))),
            ArrayExpr::Range(name, high, low) => {
                let number = self.variable(name);
                self.range(number, high, low)?;
                Ok(Some(Dest::Range(number)))
            }
            ArrayExpr::Literal(_) | ArrayExpr::OfInt(_) => Ok(None),
        }
    }

    // The same of a CAPTURE that may be left out.
    fn capture(&mut self, a: &Option<Box<ArrayExpr>>) -> Result<Option<Dest>, AllocError>
        ensures drafted { OnOk result (self.new ≡ with_code self.old (operands_code_in self.old
            (target_operands_in self.old (option_map (λ a. array_tree (box_value a)) a.now)))) }
        ensures target { IfOk result
            (λ target. target ≡ target_in self.old (option_map (λ a. array_tree (box_value a)) a.now)) }
    {
        match a {
            Some(a) => self.target(a),
            None => Ok(None),
        }
    }

    // The operands of the expected bits and of the mask more, and where both come from.
    fn expected_and_mask(
        &mut self,
        expected: &ArrayExpr,
        mask: &ArrayExpr,
    ) -> Result<(Source, Source), AllocError>
        ensures drafted { OnOk result (self.new ≡ with_literals (with_code self.old
            (operands_code_in self.old
            (array_operands_in self.old (array_tree expected.now) ++ array_operands_in self.old (array_tree mask.now))))
            (array_literals (array_tree expected.now) ++ array_literals (array_tree mask.now))) }
        ensures expected { IfOk result (λ both. both.0 ≡ source_in self.old (array_tree expected.now)) }
        ensures mask { IfOk result (λ both. both.1 ≡ source_code (scope_of_site self.old.site).look
            (past (length self.old.literals) (array_literals (array_tree expected.now))) (array_tree mask.now)) }
    {
        let expected = self.source(expected)?;
        let mask = self.source(mask)?;
        Ok((expected, mask))
    }

    // The operands of a comparison more, and what it compares with.
    fn comparison(&mut self, compare: &stapl_syntax::Compare) -> Result<Option<Compare>, AllocError>
        ensures drafted { OnOk result (self.new ≡ with_literals (with_code self.old
            (operands_code_in self.old (compare_operands_in self.old (Some (compare_tree compare.now)))))
            (compare_literals (Some (compare_tree compare.now)))) }
        ensures compare { IfOk result (λ found. found ≡ compare_in self.old (Some (compare_tree compare.now))) }
    {
        match &compare.cell {
            Expr::Scalar(name) => {
                let cell = Cell::Scalar(self.variable(name));
                let (expected, mask) = self.expected_and_mask(&compare.expected, &compare.mask)?;
                Ok(Some(Compare {
                    expected,
                    mask,
                    cell,
                }))
            }
            Expr::Element(name, index) => {
                let number = self.variable(name);
                let (expected, mask) = self.expected_and_mask(&compare.expected, &compare.mask)?;
                self.index(number, index)?;
                Ok(Some(Compare {
                    expected,
                    mask,
                    cell: Cell::Element(number),
                }))
            }
            _ => Ok(None),
        }
    }

    // The same of a COMPARE that may be left out.
    fn compare(
        &mut self,
        compare: &Option<Box<stapl_syntax::Compare>>,
    ) -> Result<Option<Compare>, AllocError>
        ensures drafted { OnOk result (self.new ≡ with_literals (with_code self.old
            (operands_code_in self.old
            (compare_operands_in self.old (option_map (λ c. compare_tree (box_value c)) compare.now))))
            (compare_literals (option_map (λ c. compare_tree (box_value c)) compare.now))) }
        ensures compare { IfOk result
            (λ found. found ≡ compare_in self.old (option_map (λ c. compare_tree (box_value c)) compare.now)) }
    {
        match compare {
            Some(compare) => self.comparison(compare),
            None => Ok(None),
        }
    }

    /// An IRSCAN or DRSCAN more.
    pub(crate) fn scan(&mut self, scan: &stapl_syntax::Scan) -> Result<(), AllocError>
        ensures { OnOk result (self.new ≡ with_literals (with_code self.old
            (body_code_in self.old (scan_tree scan.now))) (row_literals (scan_tree scan.now))) }
    {
        self.expr(ValueKind::Int, &scan.length)?;
        let source = self.source(&scan.source)?;
        let target = self.capture(&scan.target)?;
        let compare = self.compare(&scan.compare)?;
        self.put(Instr::Scan(Scan {
            register: scan.register,
            source,
            target,
            compare,
        }))?;
        Ok(())
    }

    /// A PREDR, POSTDR, PREIR or POSTIR more.
    #[tactic(auto, using(crate::proofs::Lists::expr_before, crate::proofs::Lists::operands_before, std::proofs::Common::append_assoc))]
    pub(crate) fn pad(
        &mut self,
        which: Padding,
        length: &Expr,
        bits: &Option<Box<ArrayExpr>>,
    ) -> Result<(), AllocError>
        ensures { OnOk result (self.new ≡ with_literals (with_code self.old
            (body_code_in self.old
            (pad which (expr_tree length.now) (option_map (λ a. array_tree (box_value a)) bits.now))))
            (given_literals (option_map (λ a. array_tree (box_value a)) bits.now))) }
    {
        self.expr(ValueKind::Int, length)?;
        let source = self.given_source(bits)?;
        self.put(Instr::Pad(which, source))?;
        Ok(())
    }

    /// An IRSTOP or DRSTOP more.
    pub(crate) fn stop(&mut self, register: Register, state: u8) -> Result<(), AllocError>
        ensures { OnOk result (self.new ≡ with_code self.old (body_code_in self.old (stop register state))) }
    {
        self.put(Instr::Stop(register, tap(state)))
    }
}
