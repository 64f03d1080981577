//! What a play gives.
ghost use Rattle.std.specs.Prelude.{◌≡◌};
ghost use Rattle.stapl_meaning.specs.Texts.{fault_name};

use base::ItemList;
use bit_list::Bits;

/// A text, by its bytes.
pub type Text = ItemList<u8>;

/// What EXPORT exports.
#[derive(Drop)]
pub enum ExportValue {
    /// An integer.
    Int(i32),
    /// A Boolean.
    Bit(bool),
    /// The bits of an array, index 0 first.
    Array(Bits),
}

/// What a turn of a play gives to the outside, in order.
#[derive(Drop)]
pub enum Event {
    /// One PRINT, by its joined parts.
    Print(Text),
    /// One EXPORT, by its key and its value.
    Export(Text, ExportValue),
    /// One clock of the chain: TMS, TDI, and TDO as it was before the clock.
    Clock(bool, bool, bool),
    /// A wait of so many microseconds.
    Usec(u32),
    /// The frequency of the clocks that follow, in hertz; 0 if none is stated.
    Hertz(u32),
}

/// What goes wrong in a turn, and ends the play. The rules are this profile's.
#[derive(Clone, Copy, PartialEq, Eq)]
pub enum RunFault {
    /// The right side of `/` or `%` is 0.
    DivideByZero,
    /// An index is not one of its array.
    IndexOutOfRange,
    /// Both indexes of a range are in its array, and the high one is below the low one.
    RangeReversed,
    /// An array that is no literal has fewer bits than are asked of it.
    LengthMismatch,
    /// The length of a scan or of a padding is outside its limits.
    BadLength,
    /// A count of WAIT or FREQUENCY is outside its limits.
    BadCount,
    /// A shift count is not in 0 to 31.
    ShiftCount,
    /// The step of a FOR is 0.
    ZeroStep,
    /// POP meets no value on top of the record stack, or NEXT no loop of its variable.
    NoRecord,
    /// A record is to be put on the record stack, which is full.
    RecordsFull,
    /// The number of a character is not in 0 to 255.
    BadChar,
}

impl RunFault {
    /// The name of the fault, as it is written.
    pub fn name(&self) -> &'static [u8]
        ensures { result.now ≡ fault_name self.now }
    {
        match self {
            RunFault::DivideByZero => b"DivideByZero",
            RunFault::IndexOutOfRange => b"IndexOutOfRange",
            RunFault::RangeReversed => b"RangeReversed",
            RunFault::LengthMismatch => b"LengthMismatch",
            RunFault::BadLength => b"BadLength",
            RunFault::BadCount => b"BadCount",
            RunFault::ShiftCount => b"ShiftCount",
            RunFault::ZeroStep => b"ZeroStep",
            RunFault::NoRecord => b"NoRecord",
            RunFault::RecordsFull => b"RecordsFull",
            RunFault::BadChar => b"BadChar",
        }
    }
}

/// How a play ends.
#[derive(Clone, Copy, PartialEq, Eq)]
pub enum Ending {
    /// It ends with this code.
    Exit(i32),
    /// A fault ends it, in the turn of this piece. Pieces are counted from 1.
    Fault(RunFault, u32),
    /// It still goes on after the turns that it was given.
    Spent,
}
