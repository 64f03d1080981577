//! What the compiler reads off tables: numbers of operators, kinds of operands, and instructions of literals.
ghost use Rattle.std.specs.Prelude.{◌≡◌, option_map, slice_get, slice_index, take};
ghost use Rattle.bit_list.specs.Integers.{int_of};
ghost use Rattle.stapl_meaning.specs.Values.{alike, side, unary_side};
ghost use Rattle.stapl_meaning.specs.Operands.{bit_number, given_kind, printed_kind};
ghost use Rattle.stapl_codegen.specs.Emit.{by_kind, operator_number, sign_number, literal_code, shown_part, export_part};

use bit_list::Bits;
use stapl_code::{ExportPart, Instr};
use stapl_lexer::BinOp;
use stapl_meaning::ValueKind;
use stapl_names::{Names, is_bit_alone};
use stapl_syntax::{Kind, UnOp, VarKind};

/// The number of no operator. No machine carries out a Binary with it, so it stands for what no program has.
pub(crate) const NO_OPERATOR: u8 = 255;

/// One of two numbers, by the kind of the sides of an operator.
pub(crate) fn by_kind(side: ValueKind, integers: u8, booleans: u8) -> u8
    ensures { result ≡ by_kind side integers booleans }
{
    match side {
        ValueKind::Int => integers,
        ValueKind::Bit => booleans,
    }
}

/// The number of an operator whose sides are of a kind.
pub(crate) fn operator_number(op: BinOp, side: ValueKind) -> u8
    ensures { result ≡ operator_number op side }
{
    match op {
        BinOp::Add => 0,
        BinOp::Subtract => 1,
        BinOp::Multiply => 2,
        BinOp::Divide => 3,
        BinOp::Remainder => 4,
        BinOp::BitAnd => by_kind(side, 5, 16),
        BinOp::BitOr => by_kind(side, 6, 17),
        BinOp::BitXor => by_kind(side, 7, 18),
        BinOp::ShiftLeft => 8,
        BinOp::ShiftRight => 9,
        BinOp::Equal => by_kind(side, 10, 21),
        BinOp::NotEqual => by_kind(side, 11, 22),
        BinOp::Less => 12,
        BinOp::AtMost => 13,
        BinOp::Greater => 14,
        BinOp::AtLeast => 15,
        BinOp::And => 19,
        BinOp::Or => 20,
    }
}

/// The number of ABS among the operators before a value.
pub(crate) const ABSOLUTE: u8 = 2;

pub(crate) fn sign_number(op: UnOp) -> u8
    ensures { result ≡ sign_number op }
{
    match op {
        UnOp::Negate => 0,
        UnOp::Complement => 1,
        UnOp::Not => 3,
    }
}

/// The kind of what an operator before a value wants.
pub(crate) fn unary_side(op: UnOp) -> ValueKind
    ensures { result ≡ unary_side op }
{
    match op {
        UnOp::Not => ValueKind::Bit,
        UnOp::Negate | UnOp::Complement => ValueKind::Int,
    }
}

/// Booleans if one of two expressions of these kinds is a Boolean, else integers.
pub(crate) fn alike(left: Option<Kind>, right: Option<Kind>) -> ValueKind
    ensures { result ≡ alike left right }
{
    if is_bit_alone(left) || is_bit_alone(right) {
        ValueKind::Bit
    } else {
        ValueKind::Int
    }
}

/// The kind of both sides of an operator, by the kinds of the expressions.
pub(crate) fn side(op: BinOp, left: Option<Kind>, right: Option<Kind>) -> ValueKind
    ensures { result ≡ side op left right }
{
    match op {
        BinOp::And | BinOp::Or => ValueKind::Bit,
        BinOp::Equal | BinOp::NotEqual | BinOp::BitAnd | BinOp::BitXor | BinOp::BitOr => {
            alike(left, right)
        }
        _ => ValueKind::Int,
    }
}

/// The kind of what is printed of an expression of this kind.
pub(crate) fn printed_kind(kind: Option<Kind>) -> ValueKind
    ensures { result ≡ printed_kind kind }
{
    if is_bit_alone(kind) {
        ValueKind::Bit
    } else {
        ValueKind::Int
    }
}

/// The kind of what a variable without brackets is given, or an element.
pub(crate) fn given_kind(kind: Option<VarKind>) -> ValueKind
    ensures { result ≡ given_kind kind }
{
    match kind {
        Some(VarKind::Boolean | VarKind::BooleanArray) => ValueKind::Bit,
        _ => ValueKind::Int,
    }
}

/// A number where a value of a kind is wanted.
pub(crate) fn literal(kind: ValueKind, n: i32) -> Instr
    ensures { result ≡ literal_code kind n }
{
    match kind {
        ValueKind::Int => Instr::Push(n),
        ValueKind::Bit => match n {
            0 => Instr::PushBit(0),
            1 => Instr::PushBit(1),
            _ => Instr::Binary(NO_OPERATOR),
        },
    }
}

/// The number of a bit.
pub(crate) fn bit_number(bit: bool) -> i32
    ensures { result ≡ bit_number bit }
{
    if bit { 1 } else { 0 }
}

/// The integer whose lowest bits are those of a literal.
#[tactic(auto, using(crate::proofs::Emits::short_literal))]
pub(crate) fn literal_integer(bits: &Bits) -> i32
    ensures { result ≡ int_of (take 32 bits.now) }
{
    if bits.len() < 32 {
        bits.to_int(0, bits.len())
    } else {
        bits.to_int(0, 32)
    }
}

/// How a value of a kind is printed.
pub(crate) fn shown_part(kind: ValueKind) -> stapl_code::PrintPart
    ensures { result ≡ shown_part kind }
{
    match kind {
        ValueKind::Int => stapl_code::PrintPart::Int,
        ValueKind::Bit => stapl_code::PrintPart::Bit,
    }
}

/// How a value of a kind is exported.
pub(crate) fn export_part(kind: ValueKind) -> ExportPart
    ensures { result ≡ export_part kind }
{
    match kind {
        ValueKind::Int => ExportPart::Int,
        ValueKind::Bit => ExportPart::Bit,
    }
}

/// The kind of the variable of a number, if there is one.
#[tactic(auto, using(std::proofs::lemmas::Option::slice_get_past))]
pub(crate) fn kind_at(names: &Names, number: u32) -> Option<VarKind>
    ensures { result ≡ option_map (λ e. e.1.kind) (slice_get names.now.variables number) }
{
    if number >= names.variables() {
        return None;
    }
    Some(names.variable(number).kind)
}

/// The number of the next procedure at a block, from those at all blocks.
pub(crate) fn number_at(next: &[u32], block: u32) -> u32
    ensures { result ≡ slice_index next.now block }
{
    next.get(block as usize).copied().unwrap_or(0)
}
