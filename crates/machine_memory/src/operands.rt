//! The operands as a stack, which takes no memory.
ghost use Rattle.std.specs.Prelude.{◌≡◌, ◌∷◌, ◌<◌, drop, length, reverse, vec_capacity, IfSome};

use stapl_meaning::Value;

/// The topmost operand.
#[inline(always)]
pub fn top(operands: &Vec<Value>) -> Option<Value>
    ensures { IfSome result (λ v. reverse operands.now.items ≡ v ∷ drop 1 (reverse operands.now.items)) }
{
    match operands.as_slice() {
        [.., value] => Some(*value),
        _ => None,
    }
}

/// The two topmost operands, the topmost last.
#[inline(always)]
pub fn top_two(operands: &Vec<Value>) -> Option<(Value, Value)>
    ensures { IfSome result (λ both.
        reverse operands.now.items ≡ both.1 ∷ both.0 ∷ drop 2 (reverse operands.now.items)) }
{
    match operands.as_slice() {
        [.., below, value] => Some((*below, *value)),
        _ => None,
    }
}

/// Takes the topmost operand off.
#[inline(always)]
pub fn leave(operands: &mut Vec<Value>)
    ensures left { reverse operands.new.items ≡ drop 1 (reverse operands.old.items) }
    ensures room { vec_capacity operands.new ≡ vec_capacity operands.old }
{
    let _ = operands.pop();
}

/// Puts a value in the place of the topmost operand.
#[inline(always)]
pub fn replace(operands: &mut Vec<Value>, value: Value)
    requires { 0 < length operands.old.items }
    ensures replaced { reverse operands.new.items ≡ value ∷ drop 1 (reverse operands.old.items) }
    ensures room { vec_capacity operands.new ≡ vec_capacity operands.old }
{
    let _ = operands.pop();
    operands.push_reserved(value);
}

/// Puts a value on top, for which there is room.
#[inline(always)]
pub fn put(operands: &mut Vec<Value>, value: Value)
    requires { length operands.old.items < vec_capacity operands.old }
    ensures put { reverse operands.new.items ≡ value ∷ reverse operands.old.items }
    ensures room { vec_capacity operands.new ≡ vec_capacity operands.old }
{
    operands.push_reserved(value);
}
