//! The operators of the machine.
ghost use Rattle.std.specs.Prelude.{◌≡◌, slice_get};
ghost use Rattle.stapl_code.specs.Operators.{operator_table, unary_kinds};

use stapl_lexer::BinOp;
use stapl_meaning::ValueKind;

/// An operator, the kind of both its sides, and that of what it makes of them.
#[derive(Clone, Copy)]
pub struct Operator {
    pub op: BinOp,
    pub sides: ValueKind,
    pub result: ValueKind,
}

// An integer of two.
fn arithmetic(op: BinOp) -> Option<Operator>
    ensures { result ≡ Some (record { op = op; sides = ValueKind.Int; result = ValueKind.Int }) }
{
    Some(Operator {
        op,
        sides: ValueKind::Int,
        result: ValueKind::Int,
    })
}

// A Boolean of two integers.
fn comparison(op: BinOp) -> Option<Operator>
    ensures { result ≡ Some (record { op = op; sides = ValueKind.Int; result = ValueKind.Bit }) }
{
    Some(Operator {
        op,
        sides: ValueKind::Int,
        result: ValueKind::Bit,
    })
}

// A Boolean of two.
fn logic(op: BinOp) -> Option<Operator>
    ensures { result ≡ Some (record { op = op; sides = ValueKind.Bit; result = ValueKind.Bit }) }
{
    Some(Operator {
        op,
        sides: ValueKind::Bit,
        result: ValueKind::Bit,
    })
}

/// The operator of a number.
pub fn operator_of(number: u8) -> Option<Operator>
    ensures { result ≡ slice_get operator_table number }
{
    match number {
        0 => arithmetic(BinOp::Add),
        1 => arithmetic(BinOp::Subtract),
        2 => arithmetic(BinOp::Multiply),
        3 => arithmetic(BinOp::Divide),
        4 => arithmetic(BinOp::Remainder),
        5 => arithmetic(BinOp::BitAnd),
        6 => arithmetic(BinOp::BitOr),
        7 => arithmetic(BinOp::BitXor),
        8 => arithmetic(BinOp::ShiftLeft),
        9 => arithmetic(BinOp::ShiftRight),
        10 => comparison(BinOp::Equal),
        11 => comparison(BinOp::NotEqual),
        12 => comparison(BinOp::Less),
        13 => comparison(BinOp::AtMost),
        14 => comparison(BinOp::Greater),
        15 => comparison(BinOp::AtLeast),
        16 => logic(BinOp::BitAnd),
        17 => logic(BinOp::BitOr),
        18 => logic(BinOp::BitXor),
        19 => logic(BinOp::And),
        20 => logic(BinOp::Or),
        21 => logic(BinOp::Equal),
        22 => logic(BinOp::NotEqual),
        _ => None,
    }
}

/// The kind of what the operator of a number before a value wants, and of what it makes.
pub fn unary_kind(number: u8) -> Option<ValueKind>
    ensures { result ≡ slice_get unary_kinds number }
{
    match number {
        0 | 1 | 2 => Some(ValueKind::Int),
        3 => Some(ValueKind::Bit),
        _ => None,
    }
}
