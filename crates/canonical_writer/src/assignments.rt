//! Assignments.
#![tactic(auto, using(crate::proofs::WriterLemmas::written_append))]

ghost use Rattle.std.specs.Prelude.{◌≡◌, OnOk};
ghost use Rattle.stapl_syntax.specs.Trees.{expr_tree, array_tree, assign, assign_element, assign_array, assign_range};
ghost use Rattle.canonical_text.specs.PrintedStatements.{body_tokens};
ghost use Rattle.canonical_writer.specs.Written.{written};

use crate::writer::Writer;
use stapl_lexer::{Mark, Name};
use stapl_syntax::{ArrayExpr, Expr};
use std::alloc::AllocError;

impl Writer {
    /// To a scalar.
    pub(crate) fn put_assign(&mut self, v: &Name, e: &Expr) -> Result<(), AllocError>
        ensures { OnOk result (self.new ≡ written self.old (body_tokens (assign v.now (expr_tree e.now)))) }
    {
        self.put_name(v)?;
        self.put_mark(Mark::Equals)?;
        self.put_value(e)
    }

    /// To an element.
    pub(crate) fn put_assign_element(
        &mut self,
        v: &Name,
        index: &Expr,
        e: &Expr,
    ) -> Result<(), AllocError>
        ensures { OnOk result (self.new ≡ written self.old
            (body_tokens (assign_element v.now (expr_tree index.now) (expr_tree e.now)))) }
    {
        self.put_name(v)?;
        self.put_mark(Mark::LeftSquare)?;
        self.put_value(index)?;
        self.put_mark(Mark::RightSquare)?;
        self.put_mark(Mark::Equals)?;
        self.put_value(e)
    }

    /// To a whole array.
    pub(crate) fn put_assign_array(&mut self, v: &Name, a: &ArrayExpr) -> Result<(), AllocError>
        ensures { OnOk result (self.new ≡ written self.old (body_tokens (assign_array v.now (array_tree a.now)))) }
    {
        self.put_name(v)?;
        self.put_mark(Mark::LeftSquare)?;
        self.put_mark(Mark::RightSquare)?;
        self.put_mark(Mark::Equals)?;
        self.put_array(a)
    }

    /// To a range of an array.
    pub(crate) fn put_assign_range(
        &mut self,
        v: &Name,
        high: &Expr,
        low: &Expr,
        a: &ArrayExpr,
    ) -> Result<(), AllocError>
        ensures { OnOk result (self.new ≡ written self.old
            (body_tokens (assign_range v.now (expr_tree high.now) (expr_tree low.now) (array_tree a.now)))) }
    {
        self.put_name(v)?;
        self.put_mark(Mark::LeftSquare)?;
        self.put_value(high)?;
        self.put_mark(Mark::Dots)?;
        self.put_value(low)?;
        self.put_mark(Mark::RightSquare)?;
        self.put_mark(Mark::Equals)?;
        self.put_array(a)
    }
}
