//! What a program declares: its blocks and variables, each by the first piece that declares it. Contracts speak of them
//! by the definitions of `specs/Names`.
use base::ItemList;
use stapl_lexer::Name;

/// The kind of a variable (JESD71, INTEGER and BOOLEAN).
#[derive(Clone, Copy, PartialEq, Eq)]
pub enum VarKind {
    Integer,
    Boolean,
    IntegerArray,
    BooleanArray,
}

/// What a declaration of a variable says of it, without its initial value (JESD71, INTEGER and BOOLEAN).
#[derive(Clone, Copy, Drop)]
pub struct Declaration {
    pub name: Name,
    pub kind: VarKind,
    /// How many elements an array has, where 2147483648 stands as -2147483648; 1 for a scalar.
    pub size: i32,
}

/// A block: a procedure or a DATA block (JESD71, PROCEDURE and DATA).
#[derive(Drop)]
pub struct Block {
    pub name: Name,
    /// The piece that declares it, counted from 1.
    pub piece: u32,
    /// Whether it is a DATA block.
    pub is_data: bool,
    /// The names after USES, in their order.
    pub uses: ItemList<Name>,
}

/// A name in a block, which is known by its name.
#[derive(Clone, Copy, PartialEq, Eq, Hash, Drop)]
pub struct Key {
    pub block: Name,
    pub name: Name,
}

/// A variable.
#[derive(Clone, Copy, Drop)]
pub struct Variable {
    /// The name of the block that declares it, and its own.
    pub key: Key,
    /// The piece that declares it, counted from 1.
    pub piece: u32,
    pub kind: VarKind,
    /// How many elements an array has, where 2147483648 stands as -2147483648; 1 for a scalar.
    pub size: i32,
}

/// What a name of a variable stands for.
#[derive(Clone, Copy, PartialEq, Eq)]
pub enum Found {
    /// The variable with this number, counted from 0 in the order of the first declarations.
    Variable(u32),
    /// No variable that is visible there, but one of another block.
    Hidden,
    /// No variable of any block.
    Absent,
}

/// The kind of an expression. The literals 0 and 1 are `Either`, which is accepted for both others.
#[derive(Clone, Copy)]
pub enum Kind {
    Int,
    Bool,
    Either,
}
