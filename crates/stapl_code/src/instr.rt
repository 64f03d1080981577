//! The instructions of the stack machine.
use base::ItemList;
use stapl_lexer::{Padding, Register};
use stapl_meaning::{ValueKind, WaitKind};
use tap_states::Tap;

/// A part of what a Print prints.
#[derive(Clone, Copy)]
pub enum PrintPart {
    /// The text of a number.
    Text(u32),
    /// An integer, from the operands.
    Int,
    /// A Boolean, from the operands, as 0 or 1.
    Bit,
    /// A character, whose number is from the operands.
    Char,
}

/// Where an instruction takes bits from.
#[derive(Clone, Copy)]
pub enum Source {
    /// The literal of a number.
    Literal(u32),
    /// The whole of a BOOLEAN array.
    Whole(u32),
    /// A range of a BOOLEAN array, whose first and second indexes are from the operands.
    Range(u32),
    /// The 32 bits of an integer, from the operands.
    FromInt,
}

/// Where an instruction puts bits.
#[derive(Clone, Copy)]
pub enum Dest {
    /// Into the whole of a BOOLEAN array.
    Whole(u32),
    /// Into a range of a BOOLEAN array, whose first and second indexes are from the operands.
    Range(u32),
}

/// What an Export exports.
#[derive(Clone, Copy)]
pub enum ExportPart {
    /// An integer, from the operands.
    Int,
    /// A Boolean, from the operands.
    Bit,
    /// The bits of a source.
    Array(Source),
}

/// Where the result of a comparison goes.
#[derive(Clone, Copy)]
pub enum Cell {
    /// Into a BOOLEAN scalar.
    Scalar(u32),
    /// Into an element of a BOOLEAN array, whose index is from the operands.
    Element(u32),
}

/// What a Scan compares the captured bits with, and where the result goes.
#[derive(Clone, Copy)]
pub struct Compare {
    pub expected: Source,
    /// The bits that are compared.
    pub mask: Source,
    pub cell: Cell,
}

/// What a Scan does: the registers that it goes through, its data, where the captured bits go, and what they are
/// compared with.
#[derive(Clone, Copy)]
pub struct Scan {
    pub register: Register,
    pub source: Source,
    pub target: Option<Dest>,
    pub compare: Option<Compare>,
}

/// One instruction. Variables, literals, texts and procedures are told by their numbers, and targets are numbers of
/// instructions, all from 0.
#[derive(Drop)]
pub enum Instr {
    /// The turn of a piece begins. Pieces are counted from 1.
    Turn(u32),
    /// Puts an integer on the operands.
    Push(i32),
    /// Puts a Boolean on the operands: 0 or 1.
    PushBit(u8),
    /// Puts the value of a scalar variable on the operands.
    Load(u32),
    /// Takes an index off the operands, and puts on the element of an array.
    LoadAt(u32),
    /// Tests that the topmost operand is an index of an array.
    CheckIndex(u32),
    /// Tests that the two topmost operands are the first and the second index of a range of a BOOLEAN array.
    CheckRange(u32),
    /// Takes a value off the operands, into a scalar variable.
    Store(u32),
    /// Takes an index and a value off the operands, and puts the value into the element of an array.
    StoreAt(u32),
    /// Takes an operand off, and puts on what the operator of a number makes of it: 0 negates, 1 complements, 2 is ABS,
    /// 3 is not.
    Unary(u8),
    /// Takes two operands off, and puts on what the operator of a number makes of them.
    Binary(u8),
    /// Takes the operands of a source off, and puts on the integer with its lowest 32 bits.
    ToInt(Source),
    /// Takes the operands of both off, those of the destination first put on, and copies bits.
    CopyBits(Dest, Source),
    /// Sets the BOOLEAN array of the first number to the literal of the second.
    SetBits(u32, u32),
    /// Sets the elements of an INTEGER array from index 0 on, and those after them to 0.
    SetInts(u32, ItemList<i32>),
    /// Takes the first value, the limit and the step of a loop off the operands, the step topmost, puts the loop on the
    /// record stack, and sets its variable, an INTEGER scalar. The body begins at a turn of the same procedure.
    For(u32, u32),
    /// Goes to the body of the topmost loop of an INTEGER scalar with one step more, or drops that loop if it is over.
    Next(u32),
    /// Takes a value of a kind off the operands, and puts it on the record stack.
    PushRecord(ValueKind),
    /// Takes a value off the record stack, and puts it on the operands as one of a kind.
    PopRecord(ValueKind),
    /// Goes to the procedure of a number. A record keeps the place after it.
    Call(u32),
    /// Goes to a turn of the same procedure.
    Jump(u32),
    /// Takes a Boolean off the operands, and goes to a turn of the same procedure where it is 0.
    JumpIfZero(u32),
    /// The procedure ends.
    EndProc,
    /// Prints its joined parts as one line. It takes an operand for each part that is no text; the last part's is the
    /// topmost.
    Print(ItemList<PrintPart>),
    /// Exports a value, or the bits of a source, under the text of a number.
    Export(u32, ExportPart),
    /// Tests that the topmost operand is the number of a character.
    CheckChar,
    /// Takes an integer off the operands, and ends the play with it.
    Exit,
    /// Takes the length of a scan off the operands, and then those of its parts in the written order, the last one's
    /// topmost, and scans.
    Scan(Scan),
    /// Sets the state in which scans through these registers end. It is stable.
    Stop(Register, Tap),
    /// Takes the length of a padding off the operands, and then those of its source, and sets the padding: to ones, if
    /// there is no source.
    Pad(Padding, Option<Source>),
    /// Moves the chain through these states, one after the other. The last one is stable.
    State(ItemList<Tap>),
    /// Takes the counts of a wait off the operands, the microseconds topmost, moves the chain to the first state, waits
    /// there, and moves it to the last one. Both are stable.
    Wait(Tap, WaitKind, Tap),
    /// States the frequency of the clocks that follow: that which it takes off the operands, or none.
    Frequency(bool),
}
