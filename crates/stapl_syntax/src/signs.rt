//! What the grammar sees of tokens, and the operators with one operand.
use stapl_lexer::{
    BinOp, Function, InnerWord, JoinWord, Mark, Name, OuterWord, PortWord, SimpleWord,
};

/// An operator with one operand (JESD71, expressions).
#[derive(Clone, Copy)]
pub enum UnOp {
    Negate,
    Complement,
    Not,
}

/// What the grammar sees of a token, but for what a string, a literal and the digits after CRC hold.
#[derive(Clone, Copy)]
pub enum Sign {
    /// A number, where 2147483648 stands for -2147483648.
    Number(i32),
    /// A name, which is a word that is not reserved.
    Name(Name),
    /// A state, by its number in the order of the table of states: RESET is 0, IRUPDATE is 15.
    State(u8),
    Operator(BinOp),
    Mark(Mark),
    Outer(OuterWord),
    Inner(InnerWord),
    Simple(SimpleWord),
    /// IF.
    If,
    Port(PortWord),
    Join(JoinWord),
    Function(Function),
    /// TRST, VECTOR or VMAP, first words of statements that this profile leaves out.
    LeftOutStatement,
    /// CEIL, FLOOR, LOG2, MAX or SQRT, which this profile leaves out.
    LeftOutWord,
    /// None of these.
    Other,
}
