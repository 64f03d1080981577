//! The kinds of expressions (JESD71, expressions and Boolean arrays).
ghost use Rattle.std.specs.Prelude.{◌≡◌, if◌then◌else◌};
ghost use Rattle.stapl_syntax.specs.Trees.{expr_tree, array_tree};
ghost use Rattle.stapl_syntax.specs.Kinds.{VarKinds, is_int, is_bit, is_bit_alone, scalar_kind, element_kind, is_bit_array, is_integer, if_ints, if_bits, if_alike, if_equal, binary_kind, unary_kind, number_kind, indexed_kind, expr_kind, is_array};

use stapl_lexer::{BinOp, Name};
use stapl_syntax::{ArrayExpr, Expr, Kind, UnOp, VarKind};

/// What knows the kinds of the variables that names stand for.
pub trait VariableKinds {
    /// The kinds by name.
    ghost kinds: { Self → VarKinds };

    /// The kind of the variable that a name stands for, if it stands for one.
    fn kind(&self, name: &Name) -> Option<VarKind>
        ensures { result ≡ kinds self.now name.now };
}

/// Whether an expression of this kind, if it has one, may stand where an integer is wanted.
pub fn is_int(kind: Option<Kind>) -> bool
    ensures { result ≡ is_int kind }
{
    matches!(kind, Some(Kind::Int) | Some(Kind::Either))
}

/// Whether it may stand where a bit is wanted.
pub fn is_bit(kind: Option<Kind>) -> bool
    ensures { result ≡ is_bit kind }
{
    matches!(kind, Some(Kind::Bool) | Some(Kind::Either))
}

/// Whether it is a bit, and no literal.
pub fn is_bit_alone(kind: Option<Kind>) -> bool
    ensures { result ≡ is_bit_alone kind }
{
    matches!(kind, Some(Kind::Bool))
}

/// The kind of a variable without brackets.
pub fn scalar_kind(kind: Option<VarKind>) -> Option<Kind>
    ensures { result ≡ scalar_kind kind }
{
    match kind {
        Some(VarKind::Integer) => Some(Kind::Int),
        Some(VarKind::Boolean) => Some(Kind::Bool),
        _ => None,
    }
}

/// The kind of an element of a variable.
pub fn element_kind(kind: Option<VarKind>) -> Option<Kind>
    ensures { result ≡ element_kind kind }
{
    match kind {
        Some(VarKind::IntegerArray) => Some(Kind::Int),
        Some(VarKind::BooleanArray) => Some(Kind::Bool),
        _ => None,
    }
}

/// Whether a variable is an array of bits.
pub fn is_bit_array(kind: Option<VarKind>) -> bool
    ensures { result ≡ is_bit_array kind }
{
    matches!(kind, Some(VarKind::BooleanArray))
}

/// Whether it is an INTEGER scalar.
pub fn is_integer(kind: Option<VarKind>) -> bool
    ensures { result ≡ is_integer kind }
{
    matches!(kind, Some(VarKind::Integer))
}

// This kind, if both operands are integers.
fn if_ints(kind: Kind, left: Option<Kind>, right: Option<Kind>) -> Option<Kind>
    ensures { result ≡ if_ints kind left right }
{
    if is_int(left) && is_int(right) {
        Some(kind)
    } else {
        None
    }
}

// A bit, if both operands are bits.
fn if_bits(left: Option<Kind>, right: Option<Kind>) -> Option<Kind>
    ensures { result ≡ if_bits left right }
{
    if is_bit(left) && is_bit(right) {
        Some(Kind::Bool)
    } else {
        None
    }
}

// A bit, if both operands are bits and one of them is no literal; else an integer, if both are integers.
fn if_alike(left: Option<Kind>, right: Option<Kind>) -> Option<Kind>
    ensures { result ≡ if_alike left right }
{
    if is_bit_alone(left) || is_bit_alone(right) {
        if_bits(left, right)
    } else {
        if_ints(Kind::Int, left, right)
    }
}

// A bit, if both operands are integers or both are bits.
fn if_equal(left: Option<Kind>, right: Option<Kind>) -> Option<Kind>
    ensures { result ≡ if_equal left right }
{
    if (is_int(left) && is_int(right)) || (is_bit(left) && is_bit(right)) {
        Some(Kind::Bool)
    } else {
        None
    }
}

fn binary_kind(operator: BinOp, left: Option<Kind>, right: Option<Kind>) -> Option<Kind>
    ensures { result ≡ binary_kind operator left right }
{
    match operator {
        BinOp::Multiply
        | BinOp::Divide
        | BinOp::Remainder
        | BinOp::Add
        | BinOp::Subtract
        | BinOp::ShiftLeft
        | BinOp::ShiftRight => if_ints(Kind::Int, left, right),
        BinOp::Less | BinOp::AtMost | BinOp::Greater | BinOp::AtLeast => {
            if_ints(Kind::Bool, left, right)
        }
        BinOp::Equal | BinOp::NotEqual => if_equal(left, right),
        BinOp::BitAnd | BinOp::BitXor | BinOp::BitOr => if_alike(left, right),
        BinOp::And | BinOp::Or => if_bits(left, right),
    }
}

// The kind of an integer, if the operand is one.
fn int_if(is_int: bool) -> Option<Kind>
    ensures { result ≡ (if is_int then Some Kind.Int else None) }
{
    if is_int { Some(Kind::Int) } else { None }
}

fn unary_kind(operator: UnOp, operand: Option<Kind>) -> Option<Kind>
    ensures { result ≡ unary_kind operator operand }
{
    match operator {
        UnOp::Negate | UnOp::Complement => int_if(is_int(operand)),
        UnOp::Not => {
            if is_bit(operand) {
                Some(Kind::Bool)
            } else {
                None
            }
        }
    }
}

// The kind of a number. The literals 0 and 1 stand for bits too.
fn number_kind(number: i32) -> Kind
    ensures { result ≡ number_kind number }
{
    if 0 <= number && number <= 1 {
        Kind::Either
    } else {
        Kind::Int
    }
}

// The kind of an element, if its index is an integer.
fn indexed_kind(array: Option<VarKind>, index: Option<Kind>) -> Option<Kind>
    ensures { result ≡ indexed_kind array index }
{
    if is_int(index) {
        element_kind(array)
    } else {
        None
    }
}

/// The kind of an expression, if no rule of kinds is broken in it.
#[cycle(kinds)]
pub fn expr_kind<V: VariableKinds>(variables: &V, expr: &Expr) -> Option<Kind>
    ensures { result ≡ expr_kind (V.kinds variables.now) (expr_tree expr.now) }
{
    match expr {
        Expr::Number(number) => Some(number_kind(*number)),
        Expr::Scalar(name) => scalar_kind(variables.kind(name)),
        Expr::Element(name, index) => indexed_kind(
            variables.kind(name),
            expr_kind(variables, index),
        ),
        Expr::Unary(operator, operand) => unary_kind(*operator, expr_kind(variables, operand)),
        Expr::Binary(operator, left, right) => {
            binary_kind(
                *operator,
                expr_kind(variables, left),
                expr_kind(variables, right),
            )
        }
        Expr::Abs(operand) => int_if(is_int(expr_kind(variables, operand))),
        Expr::Int(array) => int_if(is_array(variables, array)),
    }
}

/// Whether it is a list of bits in which no rule of kinds is broken.
#[cycle(kinds)]
pub fn is_array<V: VariableKinds>(variables: &V, array: &ArrayExpr) -> bool
    ensures { result ≡ is_array (V.kinds variables.now) (array_tree array.now) }
{
    match array {
        ArrayExpr::Literal(_) => true,
        ArrayExpr::Whole(name) => is_bit_array(variables.kind(name)),
        ArrayExpr::Range(name, high, low) => {
            is_bit_array(variables.kind(name))
                && is_int(expr_kind(variables, high))
                && is_int(expr_kind(variables, low))
        }
        ArrayExpr::OfInt(operand) => is_int(expr_kind(variables, operand)),
    }
}
