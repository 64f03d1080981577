//! The symbols of the grammar that have a fixed spelling: operators, other marks and reserved words, each by its place
//! in the grammar.

/// An operator with two operands (JESD71, expressions).
#[derive(Clone, Copy)]
pub enum BinOp {
    Multiply,
    Divide,
    Remainder,
    Add,
    Subtract,
    ShiftLeft,
    ShiftRight,
    Less,
    AtMost,
    Greater,
    AtLeast,
    Equal,
    NotEqual,
    BitAnd,
    BitXor,
    BitOr,
    And,
    Or,
}

/// A mark that is no operator with two operands.
#[derive(Clone, Copy)]
pub enum Mark {
    Tilde,
    Exclamation,
    LeftRound,
    RightRound,
    LeftSquare,
    RightSquare,
    Dots,
    Comma,
    Equals,
    Colon,
}

/// Which register a scan or a stop state speaks of: `Data` is DR, `Instruction` is IR.
#[derive(Clone, Copy)]
pub enum Register {
    Data,
    Instruction,
}

/// Which of the four paddings: before or after the data or the instruction register.
#[derive(Clone, Copy)]
pub enum Padding {
    PreData,
    PostData,
    PreInstruction,
    PostInstruction,
}

/// The first word of a statement outside procedures and DATA blocks, or of one that begins or ends such a block from
/// outside.
#[derive(Clone, Copy)]
pub enum OuterWord {
    Note,
    Action,
    Procedure,
    Data,
    EndData,
    Crc,
}

/// ENDPROC, or the first word of a declaration.
#[derive(Clone, Copy)]
pub enum InnerWord {
    EndProcedure,
    Boolean,
    Integer,
}

/// The first word of a statement that may follow THEN, other than IF and those that drive the test access port.
#[derive(Clone, Copy)]
pub enum SimpleWord {
    Call,
    Goto,
    For,
    Next,
    Push,
    Pop,
    Print,
    Export,
    Exit,
}

/// The first word of a statement that drives the test access port.
#[derive(Clone, Copy)]
pub enum PortWord {
    /// DRSCAN, IRSCAN.
    Scan(Register),
    /// DRSTOP, IRSTOP.
    Stop(Register),
    /// PREDR, POSTDR, PREIR, POSTIR.
    Pad(Padding),
    State,
    Wait,
    Frequency,
}

/// A word that stands inside statements.
#[derive(Clone, Copy)]
pub enum JoinWord {
    Capture,
    Compare,
    Cycles,
    Optional,
    Recommended,
    Step,
    Then,
    To,
    Usec,
    Uses,
}

/// A function of expressions; `Character` is `CHR$`, which stands in PRINT alone.
#[derive(Clone, Copy)]
pub enum Function {
    Abs,
    Bool,
    Character,
    Int,
}

/// A symbol of the grammar with a fixed spelling (JESD71, statements and expressions).
#[derive(Clone, Copy)]
pub enum Terminal {
    Operator(BinOp),
    Mark(Mark),
    Outer(OuterWord),
    Inner(InnerWord),
    Simple(SimpleWord),
    /// IF.
    If,
    Port(PortWord),
    Join(JoinWord),
    Function(Function),
    /// A state, by its number in the order of the table of states: RESET is 0, IRUPDATE is 15.
    State(u8),
    /// TRST, VECTOR or VMAP, first words of statements that this profile leaves out.
    LeftOutStatement,
    /// CEIL, FLOOR, LOG2, MAX or SQRT, which this profile leaves out.
    LeftOutWord,
}
