//! What the operators do to values.
ghost use Rattle.std.specs.Prelude.{◌≡◌, ◌≢◌, ◌<◌, ◌^◌, pos, ◌+ℤ◌, ◌-ℤ◌, ◌*ℤ◌, neg_ℤ, negsuc, ◌&&◌, ◌||◌};
ghost use Rattle.std.specs.Prelude.{int_div, int_rem, unsigned_abs};
ghost use Rattle.std.specs.Int.{int_wrap, int_div_euclid, w32};
ghost use Rattle.stapl_meaning.specs.Values.{absolute, combined, combined_booleans, combined_integers, signed};
ghost use Rattle.stapl_meaning.specs.Values.{bitwise, differ, divided_by, shifted_by};
ghost use Rattle.machine_memory.specs.Found.{IsValue};

use stapl_lexer::BinOp;
use stapl_meaning::{RunFault, Value};
use stapl_syntax::UnOp;

/// Why nothing was made.
#[derive(Clone, Copy)]
pub enum Stop {
    /// A fault ends the run.
    Fault(RunFault),
    /// What no valid code meets.
    Wrong,
}

/// The sum, of which 32 bits are left.
pub fn sum(a: i32, b: i32) -> i32
    ensures { result ≡ int_wrap w32 (a +ℤ b) }
{
    a.wrapping_add(b)
}

/// The difference, of which 32 bits are left.
pub fn difference(a: i32, b: i32) -> i32
    ensures { result ≡ int_wrap w32 (a -ℤ b) }
{
    a.wrapping_sub(b)
}

/// The product, of which 32 bits are left.
pub fn product(a: i32, b: i32) -> i32
    ensures { result ≡ int_wrap w32 (a *ℤ b) }
{
    a.wrapping_mul(b)
}

fn quotient(a: i32, b: i32) -> i32
    requires { b ≢ pos 0 }
    ensures { result ≡ int_wrap w32 (int_div a b) }
{
    a.wrapping_div(b)
}

/// The quotient, or the fault of a zero divisor.
#[inline(always)]
pub fn divide(a: i32, b: i32) -> Result<Value, Stop>
    ensures { IsValue result (divided_by b (int_wrap w32 (int_div a b))) }
{
    if b == 0 {
        return Err(Stop::Fault(RunFault::DivideByZero));
    }
    Ok(Value::Int(quotient(a, b)))
}

/// The remainder, or the fault of a zero divisor.
#[inline(always)]
pub fn remainder(a: i32, b: i32) -> Result<Value, Stop>
    ensures { IsValue result (divided_by b (int_rem a b)) }
{
    if b == 0 {
        return Err(Stop::Fault(RunFault::DivideByZero));
    }
    Ok(Value::Int(a.wrapping_rem(b)))
}

fn times_power(a: i32, n: u32) -> i32
    requires { n < 32 }
    ensures { result ≡ int_wrap w32 (a *ℤ pos (2 ^ n)) }
{
    a << n
}

fn over_power(a: i32, n: u32) -> i32
    requires { n < 32 }
    ensures { result ≡ int_div_euclid a (pos (2 ^ n)) }
{
    a >> n
}

/// The product with a power of two, or the fault of a shift count.
#[inline(always)]
pub fn shift_left(a: i32, b: i32) -> Result<Value, Stop>
    ensures { IsValue result (shifted_by b (λ n. int_wrap w32 (a *ℤ pos (2 ^ n)))) }
{
    if b < 0 || b >= 32 {
        return Err(Stop::Fault(RunFault::ShiftCount));
    }
    Ok(Value::Int(times_power(a, b as u32)))
}

/// The quotient by a power of two, rounded down, or the fault of a shift count.
#[inline(always)]
pub fn shift_right(a: i32, b: i32) -> Result<Value, Stop>
    ensures { IsValue result (shifted_by b (λ n. int_div_euclid a (pos (2 ^ n)))) }
{
    if b < 0 || b >= 32 {
        return Err(Stop::Fault(RunFault::ShiftCount));
    }
    Ok(Value::Int(over_power(a, b as u32)))
}

/// The bits that both have.
pub fn common_bits(a: i32, b: i32) -> i32
    ensures { result ≡ bitwise ◌&&◌ a b }
{
    a & b
}

/// The bits that one of them has.
pub fn different_bits(a: i32, b: i32) -> i32
    ensures { result ≡ bitwise differ a b }
{
    a ^ b
}

/// The bits that one of them or both have.
pub fn joint_bits(a: i32, b: i32) -> i32
    ensures { result ≡ bitwise ◌||◌ a b }
{
    a | b
}

fn combine_integers(op: BinOp, a: i32, b: i32) -> Result<Value, Stop>
    ensures { IsValue result (combined_integers op a b) }
{
    match op {
        BinOp::Multiply => Ok(Value::Int(product(a, b))),
        BinOp::Add => Ok(Value::Int(sum(a, b))),
        BinOp::Subtract => Ok(Value::Int(difference(a, b))),
        BinOp::Less => Ok(Value::Bit(a < b)),
        BinOp::AtMost => Ok(Value::Bit(a <= b)),
        BinOp::Greater => Ok(Value::Bit(a > b)),
        BinOp::AtLeast => Ok(Value::Bit(a >= b)),
        BinOp::Equal => Ok(Value::Bit(a == b)),
        BinOp::NotEqual => Ok(Value::Bit(a != b)),
        BinOp::Divide => divide(a, b),
        BinOp::Remainder => remainder(a, b),
        BinOp::ShiftLeft => shift_left(a, b),
        BinOp::ShiftRight => shift_right(a, b),
        BinOp::BitAnd => Ok(Value::Int(common_bits(a, b))),
        BinOp::BitXor => Ok(Value::Int(different_bits(a, b))),
        BinOp::BitOr => Ok(Value::Int(joint_bits(a, b))),
        BinOp::And | BinOp::Or => Err(Stop::Wrong),
    }
}

fn combine_booleans(op: BinOp, a: bool, b: bool) -> Result<Value, Stop>
    ensures { IsValue result (combined_booleans op a b) }
{
    match op {
        BinOp::Equal => Ok(Value::Bit(a == b)),
        BinOp::NotEqual | BinOp::BitXor => Ok(Value::Bit(a != b)),
        BinOp::BitAnd | BinOp::And => Ok(Value::Bit(a && b)),
        BinOp::BitOr | BinOp::Or => Ok(Value::Bit(a || b)),
        _ => Err(Stop::Wrong),
    }
}

fn negative(a: i32) -> i32
    ensures { result ≡ int_wrap w32 (neg_ℤ a) }
{
    a.wrapping_neg()
}

fn complement(a: i32) -> i32
    ensures { result ≡ negsuc 0 -ℤ a }
{
    !a
}

fn magnitude(a: i32) -> i32
    ensures { result ≡ int_wrap w32 (pos (unsigned_abs a)) }
{
    a.wrapping_abs()
}

/// The value of two values with an operator between them.
pub fn combine(op: BinOp, left: Value, right: Value) -> Result<Value, Stop>
    ensures { IsValue result (combined op left right) }
{
    match (left, right) {
        (Value::Int(a), Value::Int(b)) => combine_integers(op, a, b),
        (Value::Bit(a), Value::Bit(b)) => combine_booleans(op, a, b),
        _ => Err(Stop::Wrong),
    }
}

/// The value of a value with an operator before it.
pub fn sign(op: UnOp, value: Value) -> Result<Value, Stop>
    ensures { IsValue result (signed op value) }
{
    match (op, value) {
        (UnOp::Negate, Value::Int(a)) => Ok(Value::Int(negative(a))),
        (UnOp::Not, Value::Bit(a)) => Ok(Value::Bit(!a)),
        (UnOp::Complement, Value::Int(a)) => Ok(Value::Int(complement(a))),
        _ => Err(Stop::Wrong),
    }
}

/// The absolute value.
pub fn absolute(value: Value) -> Result<Value, Stop>
    ensures { IsValue result (absolute value) }
{
    match value {
        Value::Int(a) => Ok(Value::Int(magnitude(a))),
        Value::Bit(_) => Err(Stop::Wrong),
    }
}
