//! What variables hold, and the values of expressions.
use base::ItemList;
use bit_list::Bits;

/// The kind of a value.
#[derive(Clone, Copy)]
pub enum ValueKind {
    /// An integer.
    Int,
    /// A Boolean.
    Bit,
}

/// A value of an expression.
#[derive(Clone, Copy)]
pub enum Value {
    /// An integer of 32 bits with a sign.
    Int(i32),
    /// A Boolean.
    Bit(bool),
}

/// What a variable holds.
#[derive(Drop)]
pub enum Held {
    /// An INTEGER scalar.
    Int(i32),
    /// A BOOLEAN scalar.
    Bit(bool),
    /// The elements of an INTEGER array, index 0 first.
    Ints(ItemList<i32>),
    /// The elements of a BOOLEAN array, index 0 first.
    Bits(Bits),
}
