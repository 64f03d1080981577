//! Expressions and arrays.
use crate::cursor::Cursor;
use crate::looks::{level, unary_of};
use crate::refused::Refused;
use stapl_lexer::{Function, Mark, Name};
use stapl_syntax::{ArrayExpr, Expr, Sign};
use std::alloc::Global;

// The level of the loosest operators.
const LOOSEST: u32 = 10;

impl<'a> Cursor<'a> {
    ghost use Rattle.std.specs.Prelude.{◌≡◌, ◌<◌, ◌≤◌, ◌∷◌, length, OnOk};
    ghost use Rattle.std.specs.Box.{box_value};
    ghost use Rattle.stapl_syntax.specs.Trees.{expr_tree, array_tree};
    ghost use Rattle.stapl_grammar.specs.Given.{Gives};
    ghost use Rattle.stapl_grammar.specs.Reading.{expr, unary_by, primary_from, brackets_from, bracketed_by, function_from, array_by, array_from, bool_from, named_by, target_by};
    ghost use Rattle.stapl_grammar.specs.PartReading.{array_at, cell_at, target_at};

    // An expression.
    pub(crate) fn expr(&mut self, alloc: Global) -> Result<Expr, Refused>
        ensures read { Gives (λ e. (expr_tree e, self.new)) result (expr 10 self.old) }
        ensures shorter { OnOk result (length self.new < length self.old) }
    {
        self.level_expr(alloc, LOOSEST)
    }

    // An expression, after a pointer. What is dropped on the way out of a function is dear to prove for an enum, and
    // cheap for a pointer.
    pub(crate) fn boxed_expr(&mut self, alloc: Global) -> Result<Box<Expr>, Refused>
        ensures read { Gives (λ e. (expr_tree (box_value e), self.new)) result (expr 10 self.old) }
        ensures shorter { OnOk result (length self.new < length self.old) }
    {
        self.boxed_level(alloc, LOOSEST)
    }

    // A scalar, or an element of an array.
    #[tactic(auto, unfolding(crate::specs::PartReading::cell_at))]
    pub(crate) fn cell(&mut self, alloc: Global) -> Result<Expr, Refused>
        ensures read { Gives (λ e. (expr_tree e, self.new)) result (cell_at self.old) }
    {
        let v = self.name()?;
        self.named(alloc, v)
    }

    // A whole array, or a range of it.
    #[tactic(auto, unfolding(crate::specs::PartReading::target_at))]
    pub(crate) fn target(&mut self, alloc: Global) -> Result<ArrayExpr, Refused>
        ensures read { Gives (λ a. (array_tree a, self.new)) result (target_at self.old) }
    {
        let v = self.name()?;
        self.target_of(alloc, v)
    }

    // A literal, a target, or the bits of an integer.
    #[tactic(auto, unfolding(crate::specs::PartReading::array_at))]
    pub(crate) fn array(&mut self, alloc: Global) -> Result<ArrayExpr, Refused>
        ensures read { Gives (λ a. (array_tree a, self.new)) result (array_at self.old) }
    {
        self.array_term(alloc)
    }

    // The same, after a pointer.
    #[tactic(auto, unfolding(crate::specs::PartReading::array_at))]
    pub(crate) fn boxed_array(&mut self, alloc: Global) -> Result<Box<ArrayExpr>, Refused>
        ensures read { Gives (λ a. (array_tree (box_value a), self.new)) result (array_at self.old) }
    {
        self.boxed_array_term(alloc)
    }

    // An expression with operators of levels up to this one.
    #[cycle(terms)]
    #[tactic(auto, using(crate::proofs::Loop::starts, crate::proofs::Loop::starts_not, crate::proofs::Loop::goes_on, crate::proofs::Loop::goes_on_not, crate::proofs::Loop::is_done))]
    fn level_expr(&mut self, alloc: Global, most: u32) -> Result<Expr, Refused>
        ensures read { Gives (λ e. (expr_tree e, self.new)) result (expr most self.old) }
        ensures shorter { OnOk result (length self.new < length self.old) }
    {
        let mut left = self.operand(alloc)?;
        while let Some(op) = self.take_operator(most) {
            let left_box = Box::new(alloc, left)?;
            let right = self.boxed_level(alloc, level(op) - 1)?;
            left = Expr::Binary(op, left_box, right);
        }
        Ok(left)
    }

    // The same, after a pointer.
    #[cycle(terms)]
    fn boxed_level(&mut self, alloc: Global, most: u32) -> Result<Box<Expr>, Refused>
        ensures read { Gives (λ e. (expr_tree (box_value e), self.new)) result (expr most self.old) }
        ensures shorter { OnOk result (length self.new < length self.old) }
    {
        let inner = self.level_expr(alloc, most)?;
        Ok(Box::new(alloc, inner)?)
    }

    // An expression in brackets, after a pointer.
    #[cycle(terms)]
    #[tactic(auto, unfolding(crate::specs::Reading::closed_by, crate::specs::Reading::bracketed_by))]
    fn bracketed(&mut self, alloc: Global) -> Result<Box<Expr>, Refused>
        ensures read { Gives (λ e. (expr_tree (box_value e), self.new)) result (bracketed_by (expr 10) self.old) }
        ensures shorter { OnOk result (length self.new ≤ length self.old) }
    {
        self.expect_mark(Mark::LeftRound)?;
        let inner = self.boxed_level(alloc, LOOSEST)?;
        self.expect_mark(Mark::RightRound)?;
        Ok(inner)
    }

    // An array in brackets, after a pointer.
    #[cycle(terms)]
    #[tactic(auto, unfolding(crate::specs::Reading::closed_by, crate::specs::Reading::bracketed_by))]
    fn bracketed_array(&mut self, alloc: Global) -> Result<Box<ArrayExpr>, Refused>
        ensures read { Gives (λ a. (array_tree (box_value a), self.new)) result
            (bracketed_by (array_by (expr 10)) self.old) }
        ensures shorter { OnOk result (length self.new ≤ length self.old) }
    {
        self.expect_mark(Mark::LeftRound)?;
        let inner = self.boxed_array_term(alloc)?;
        self.expect_mark(Mark::RightRound)?;
        Ok(inner)
    }

    // An operand: a primary, or an operator and its one operand.
    #[cycle(terms)]
    #[tactic(auto, using(crate::proofs::Loop::has_operator, crate::proofs::Loop::has_operator_not, crate::proofs::Loop::has_no_operator, crate::proofs::Loop::has_nothing))]
    fn operand(&mut self, alloc: Global) -> Result<Expr, Refused>
        ensures read { Gives (λ e. (expr_tree e, self.new)) result (unary_by (expr 10) self.old) }
        ensures shorter { OnOk result (length self.new < length self.old) }
    {
        let Some(first) = self.next() else {
            return Err(Refused::Syntax);
        };
        match unary_of(first) {
            Some(op) => {
                let inner = self.operand(alloc)?;
                Ok(Expr::Unary(op, Box::new(alloc, inner)?))
            }
            None => self.primary(alloc, first),
        }
    }

    // What begins with this sign: a number, a name, an element, brackets or a function.
    #[cycle(terms)]
    #[tactic(auto, unfolding(crate::specs::Reading::primary_from))]
    fn primary(&mut self, alloc: Global, first: Sign) -> Result<Expr, Refused>
        ensures read { Gives (λ e. (expr_tree e, self.new)) result (primary_from (expr 10) first self.old) }
        ensures shorter { OnOk result (length self.new ≤ length self.old) }
    {
        match first {
            Sign::Number(n) => Ok(Expr::Number(n)),
            Sign::Name(v) => self.named(alloc, v),
            Sign::Mark(mark) => self.in_brackets(alloc, mark),
            Sign::Function(function) => self.of_function(alloc, function),
            _ => Err(Refused::Syntax),
        }
    }

    // After an opening bracket: an expression, and the closing one.
    #[cycle(terms)]
    #[tactic(auto, unfolding(crate::specs::Reading::brackets_from, crate::specs::Reading::closed_by))]
    fn in_brackets(&mut self, alloc: Global, mark: Mark) -> Result<Expr, Refused>
        ensures read { Gives (λ e. (expr_tree e, self.new)) result (brackets_from (expr 10) mark self.old) }
        ensures shorter { OnOk result (length self.new ≤ length self.old) }
    {
        match mark {
            Mark::LeftRound => {
                let inner = self.level_expr(alloc, LOOSEST)?;
                self.expect_mark(Mark::RightRound)?;
                Ok(inner)
            }
            _ => Err(Refused::Syntax),
        }
    }

    // After a function that gives an integer: its argument in brackets.
    #[cycle(terms)]
    #[tactic(auto, unfolding(crate::specs::Reading::function_from))]
    fn of_function(&mut self, alloc: Global, function: Function) -> Result<Expr, Refused>
        ensures read { Gives (λ e. (expr_tree e, self.new)) result (function_from (expr 10) function self.old) }
        ensures shorter { OnOk result (length self.new ≤ length self.old) }
    {
        match function {
            Function::Abs => {
                let inner = self.bracketed(alloc)?;
                Ok(Expr::Abs(inner))
            }
            Function::Int => {
                let inner = self.bracketed_array(alloc)?;
                Ok(Expr::Int(inner))
            }
            _ => Err(Refused::Syntax),
        }
    }

    // After a name: an element, or the name alone.
    #[cycle(terms)]
    #[tactic(auto, unfolding(crate::specs::Reading::named_by, crate::specs::Reading::closed_by))]
    fn named(&mut self, alloc: Global, v: Name) -> Result<Expr, Refused>
        ensures read { Gives (λ e. (expr_tree e, self.new)) result (named_by (expr 10) v self.old) }
        ensures shorter { OnOk result (length self.new ≤ length self.old) }
    {
        if !self.take_mark(Mark::LeftSquare) {
            return Ok(Expr::Scalar(v));
        }
        let index = self.boxed_level(alloc, LOOSEST)?;
        self.expect_mark(Mark::RightSquare)?;
        Ok(Expr::Element(Box::new(alloc, v)?, index))
    }

    // An array.
    #[cycle(terms)]
    #[tactic(auto, unfolding(crate::specs::Reading::array_by))]
    fn array_term(&mut self, alloc: Global) -> Result<ArrayExpr, Refused>
        ensures read { Gives (λ a. (array_tree a, self.new)) result (array_by (expr 10) self.old) }
        ensures shorter { OnOk result (length self.new < length self.old) }
    {
        if self.begins_literal() {
            let bits = self.literal(alloc)?;
            return Ok(ArrayExpr::Literal(bits));
        }
        let Some(first) = self.next() else {
            return Err(Refused::Syntax);
        };
        self.array_after(alloc, first)
    }

    // An array, after a pointer.
    #[cycle(terms)]
    fn boxed_array_term(&mut self, alloc: Global) -> Result<Box<ArrayExpr>, Refused>
        ensures read { Gives (λ a. (array_tree (box_value a), self.new)) result (array_by (expr 10) self.old) }
        ensures shorter { OnOk result (length self.new < length self.old) }
    {
        let inner = self.array_term(alloc)?;
        Ok(Box::new(alloc, inner)?)
    }

    // An array that begins with this sign, and is no literal.
    #[cycle(terms)]
    #[tactic(auto, unfolding(crate::specs::Reading::array_from))]
    fn array_after(&mut self, alloc: Global, first: Sign) -> Result<ArrayExpr, Refused>
        ensures read { Gives (λ a. (array_tree a, self.new)) result (array_from (expr 10) first self.old) }
        ensures shorter { OnOk result (length self.new ≤ length self.old) }
    {
        match first {
            Sign::Name(v) => self.target_of(alloc, v),
            Sign::Function(function) => self.of_bool(alloc, function),
            _ => Err(Refused::Syntax),
        }
    }

    // After a function that gives an array: its argument in brackets.
    #[cycle(terms)]
    #[tactic(auto, unfolding(crate::specs::Reading::bool_from))]
    fn of_bool(&mut self, alloc: Global, function: Function) -> Result<ArrayExpr, Refused>
        ensures read { Gives (λ a. (array_tree a, self.new)) result (bool_from (expr 10) function self.old) }
        ensures shorter { OnOk result (length self.new ≤ length self.old) }
    {
        match function {
            Function::Bool => {
                let inner = self.bracketed(alloc)?;
                Ok(ArrayExpr::OfInt(inner))
            }
            _ => Err(Refused::Syntax),
        }
    }

    // After a name: the whole array of this name, or a range of it.
    #[cycle(terms)]
    #[tactic(auto, unfolding(crate::specs::Reading::target_by, crate::specs::Reading::target_from, crate::specs::Reading::range_by, crate::specs::Reading::closed_by))]
    fn target_of(&mut self, alloc: Global, v: Name) -> Result<ArrayExpr, Refused>
        ensures read { Gives (λ a. (array_tree a, self.new)) result (target_by (expr 10) v self.old) }
        ensures shorter { OnOk result (length self.new < length self.old) }
    {
        self.expect_mark(Mark::LeftSquare)?;
        if self.take_mark(Mark::RightSquare) {
            return Ok(ArrayExpr::Whole(v));
        }
        let high = self.boxed_level(alloc, LOOSEST)?;
        self.expect_mark(Mark::Dots)?;
        let low = self.boxed_level(alloc, LOOSEST)?;
        self.expect_mark(Mark::RightSquare)?;
        Ok(ArrayExpr::Range(Box::new(alloc, v)?, high, low))
    }
}
