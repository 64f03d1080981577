//! Statements as trees, as they are kept (JESD71, statements). Contracts speak of them by `stmt_tree` and the other
//! functions of `specs/Trees`.
use crate::names::{Declaration, VarKind};
use crate::signs::UnOp;
use base::ItemList;
use bit_list::Bits;
use stapl_lexer::{BinOp, Name, Padding, Register};

/// An expression (JESD71, expressions).
#[derive(Drop)]
#[cycle(ast)]
pub enum Expr {
    /// A number.
    Number(i32),
    /// A scalar variable.
    Scalar(Name),
    /// An element of an array variable, and its index.
    Element(Box<Name>, Box<Expr>),
    Unary(UnOp, Box<Expr>),
    Binary(BinOp, Box<Expr>, Box<Expr>),
    /// ABS.
    Abs(Box<Expr>),
    /// INT, the integer with the bits of an array.
    Int(Box<ArrayExpr>),
}

/// An expression that stands for a list of bits (JESD71, Boolean arrays). A target is one that is `Whole` or `Range`.
#[derive(Drop)]
#[cycle(ast)]
pub enum ArrayExpr {
    Literal(Bits),
    /// A whole array variable.
    Whole(Name),
    /// A range of an array variable, and its two indexes in the written order.
    Range(Box<Name>, Box<Expr>, Box<Expr>),
    /// BOOL, the bits of an integer.
    OfInt(Box<Expr>),
}

/// Whether an item of an action may be left out, or is done where nothing is said.
#[derive(Clone, Copy)]
pub enum ItemChoice {
    Optional,
    Recommended,
}

/// An item of an action.
#[derive(Clone, Copy)]
pub struct Item {
    /// The name of its procedure.
    pub procedure: Name,
    /// Whether it may be chosen; without it the procedure always runs.
    pub choice: Option<ItemChoice>,
}

/// A part of what PRINT prints.
#[derive(Drop)]
pub enum PrintPart {
    /// A string, by its bytes.
    Text(ItemList<u8>),
    /// The value of an expression.
    Value(Expr),
    /// `CHR$`, the character with this number.
    Character(Expr),
}

/// What EXPORT exports.
#[derive(Drop)]
pub enum Exported {
    Value(Expr),
    Array(ArrayExpr),
}

/// What a scan compares with.
#[derive(Drop)]
pub struct Compare {
    pub expected: ArrayExpr,
    pub mask: ArrayExpr,
    /// The scalar or element that gets the result.
    pub cell: Expr,
}

/// A scan (JESD71, DRSCAN and IRSCAN).
#[derive(Drop)]
pub struct Scan {
    pub register: Register,
    /// How many bits are shifted.
    pub length: Expr,
    /// What is shifted in.
    pub source: ArrayExpr,
    /// Where what comes out goes.
    pub target: Option<Box<ArrayExpr>>,
    pub compare: Option<Box<Compare>>,
}

/// A statement without its label (JESD71, statements). The fields stand in the written order. A string is kept by the
/// bytes between its quotes, a state by its number. What would make the largest variants larger lies after a pointer,
/// so that each statement takes little memory.
#[derive(Drop)]
pub enum Body {
    /// NOTE: key and text.
    Note(ItemList<u8>, ItemList<u8>),
    /// ACTION: its name, its text, and its items.
    Action(Box<Name>, Option<ItemList<u8>>, Box<ItemList<Item>>),
    /// PROCEDURE: its name, and the names after USES.
    Procedure(Name, Option<Box<ItemList<Name>>>),
    /// DATA.
    Data(Name),
    /// ENDDATA.
    EndData,
    /// CRC.
    Crc(u16),
    /// ENDPROC.
    EndProcedure,
    /// BOOLEAN: a scalar, and its initial value.
    Boolean(Name, Option<bool>),
    /// BOOLEAN: an array, its size, and its initial value.
    BooleanArray(Name, i32, Option<Box<Bits>>),
    /// INTEGER: a scalar, and its initial value.
    Integer(Name, Option<i32>),
    /// INTEGER: an array, its size, and its initial values.
    IntegerArray(Name, i32, Option<Box<ItemList<i32>>>),
    /// An assignment to a scalar.
    Assign(Name, Box<Expr>),
    /// An assignment to an element.
    AssignElement(Name, Box<Expr>, Box<Expr>),
    /// An assignment to a whole array.
    AssignArray(Name, Box<ArrayExpr>),
    /// An assignment to a range of an array.
    AssignRange(Box<Name>, Box<Expr>, Box<Expr>, Box<ArrayExpr>),
    /// CALL.
    Call(Name),
    /// GOTO.
    Goto(Name),
    /// IF .. THEN.
    If(Expr, Box<Body>),
    /// FOR: its variable, the first and the last value, and the step.
    For(Box<Name>, Box<Expr>, Box<Expr>, Option<Box<Expr>>),
    /// NEXT.
    Next(Name),
    /// PUSH.
    Push(Expr),
    /// POP into a scalar or an element.
    Pop(Expr),
    /// PRINT.
    Print(ItemList<PrintPart>),
    /// EXPORT: the key, and what is exported.
    Export(ItemList<u8>, Box<Exported>),
    /// EXIT.
    Exit(Expr),
    /// DRSCAN, IRSCAN.
    Scan(Box<Scan>),
    /// DRSTOP, IRSTOP.
    Stop(Register, u8),
    /// PREDR, POSTDR, PREIR, POSTIR: the length, and the bits.
    Pad(Padding, Box<Expr>, Option<Box<ArrayExpr>>),
    /// STATE: the states to go through.
    State(ItemList<u8>),
    /// WAIT for cycles, and for a time: where to wait, how many cycles, how many microseconds, and where to go then.
    WaitCycles(Option<u8>, Box<Expr>, Option<Box<Expr>>, Option<u8>),
    /// WAIT for a time alone: where to wait, how many microseconds, and where to go then.
    WaitUsec(Option<u8>, Expr, Option<u8>),
    /// FREQUENCY.
    Frequency(Option<Box<Expr>>),
}

impl Body {
    ghost use Rattle.std.specs.Prelude.{◌≡◌};
    ghost use Rattle.stapl_syntax.specs.Trees.{body_tree};
    ghost use Rattle.stapl_syntax.specs.Statements.{is_outer};
    ghost use Rattle.stapl_syntax.specs.Names.{declaration};

    /// Whether the statement stands outside procedures, or begins or ends such a block from outside. It bears no label.
    pub fn is_outer(&self) -> bool
        ensures { result ≡ is_outer (body_tree self.now) }
    {
        matches!(
            self,
            Body::Note(_, _)
                | Body::Action(_, _, _)
                | Body::Procedure(_, _)
                | Body::Data(_)
                | Body::EndData
                | Body::Crc(_)
        )
    }

    /// What the statement says of the variable that it declares; `None` if it is no declaration.
    pub fn declaration(&self) -> Option<Declaration>
        ensures { result ≡ declaration (body_tree self.now) }
    {
        let (name, kind, size) = match self {
            Body::Boolean(name, _) => (*name, VarKind::Boolean, 1),
            Body::BooleanArray(name, size, _) => (*name, VarKind::BooleanArray, *size),
            Body::Integer(name, _) => (*name, VarKind::Integer, 1),
            Body::IntegerArray(name, size, _) => (*name, VarKind::IntegerArray, *size),
            _ => return None,
        };
        Some(Declaration { name, kind, size })
    }
}

/// A statement.
#[derive(Drop)]
pub struct Stmt {
    /// The name of the label before it.
    pub label: Option<Box<Name>>,
    /// The statement after the label.
    pub body: Body,
}
