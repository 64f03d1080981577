//! Expressions and arrays.
#![tactic(auto, using(crate::proofs::WriterLemmas::written_append))]

ghost use Rattle.std.specs.Prelude.{◌≡◌, ◌<◌, OnOk};
ghost use Rattle.stapl_syntax.specs.Expressions.{level_of};
ghost use Rattle.stapl_syntax.specs.Trees.{expr_tree, array_tree};
ghost use Rattle.canonical_text.specs.PrintedStatements.{expr_tokens, array_tokens};
ghost use Rattle.canonical_writer.specs.Written.{written};

use crate::writer::Writer;
use stapl_lexer::{BinOp, Function, Mark};
use stapl_syntax::{ArrayExpr, Expr};
use std::alloc::AllocError;

/// The level of the loosest operators.
pub(crate) const LOOSEST: u32 = 10;

// The level of an operator with two operands, the tightest first.
#[tactic(auto, unfolding(stapl_syntax::specs::Expressions::level_of))]
fn level(op: BinOp) -> u32
    ensures level { result ≡ level_of op }
    ensures above { 0 < result }
{
    match op {
        BinOp::Multiply | BinOp::Divide | BinOp::Remainder => 1,
        BinOp::Add | BinOp::Subtract => 2,
        BinOp::ShiftLeft | BinOp::ShiftRight => 3,
        BinOp::Less | BinOp::AtMost | BinOp::Greater | BinOp::AtLeast => 4,
        BinOp::Equal | BinOp::NotEqual => 5,
        BinOp::BitAnd => 6,
        BinOp::BitXor => 7,
        BinOp::BitOr => 8,
        BinOp::And => 9,
        BinOp::Or => 10,
    }
}

impl Writer {
    /// An expression that stands where operators of levels up to n may stand without brackets.
    #[cycle(terms)]
    pub(crate) fn put_expr(&mut self, n: u32, e: &Expr) -> Result<(), AllocError>
        ensures { OnOk result (self.new ≡ written self.old (expr_tokens n (expr_tree e.now))) }
    {
        match e {
            Expr::Number(z) => self.put_number(*z),
            Expr::Scalar(v) => self.put_name(v),
            Expr::Element(v, index) => {
                self.put_name(v)?;
                self.put_mark(Mark::LeftSquare)?;
                self.put_expr(LOOSEST, index)?;
                self.put_mark(Mark::RightSquare)
            }
            Expr::Unary(op, x) => {
                self.put_unary(*op)?;
                self.put_expr(0, x)
            }
            Expr::Binary(op, x, y) => {
                let own = level(*op);
                let bracketed = n < own;
                if bracketed {
                    self.put_mark(Mark::LeftRound)?;
                }
                self.put_expr(own, x)?;
                self.put_operator(*op)?;
                self.put_expr(own - 1, y)?;
                if bracketed {
                    self.put_mark(Mark::RightRound)?;
                }
                Ok(())
            }
            Expr::Abs(x) => {
                self.put_function(Function::Abs)?;
                self.put_mark(Mark::LeftRound)?;
                self.put_expr(LOOSEST, x)?;
                self.put_mark(Mark::RightRound)
            }
            Expr::Int(a) => {
                self.put_function(Function::Int)?;
                self.put_mark(Mark::LeftRound)?;
                self.put_array(a)?;
                self.put_mark(Mark::RightRound)
            }
        }
    }

    /// An array.
    #[cycle(terms)]
    pub(crate) fn put_array(&mut self, a: &ArrayExpr) -> Result<(), AllocError>
        ensures { OnOk result (self.new ≡ written self.old (array_tokens (array_tree a.now))) }
    {
        match a {
            ArrayExpr::Literal(bits) => self.put_literal(bits),
            ArrayExpr::Whole(v) => {
                self.put_name(v)?;
                self.put_mark(Mark::LeftSquare)?;
                self.put_mark(Mark::RightSquare)
            }
            ArrayExpr::Range(v, high, low) => {
                self.put_name(v)?;
                self.put_mark(Mark::LeftSquare)?;
                self.put_expr(LOOSEST, high)?;
                self.put_mark(Mark::Dots)?;
                self.put_expr(LOOSEST, low)?;
                self.put_mark(Mark::RightSquare)
            }
            ArrayExpr::OfInt(x) => {
                self.put_function(Function::Bool)?;
                self.put_mark(Mark::LeftRound)?;
                self.put_expr(LOOSEST, x)?;
                self.put_mark(Mark::RightRound)
            }
        }
    }

    /// An expression with nothing around it.
    pub(crate) fn put_value(&mut self, e: &Expr) -> Result<(), AllocError>
        ensures { OnOk result (self.new ≡ written self.old (expr_tokens 10 (expr_tree e.now))) }
    {
        self.put_expr(LOOSEST, e)
    }
}
