//! The reasons of refusals.
ghost use Rattle.std.specs.Prelude.{◌≡◌};
ghost use Rattle.stapl_lexer.specs.Reasons.{reason_number, reason_name};

/// Why a text is refused. Of the reasons that hold of a piece, the one with the smallest number is named. The reasons
/// and their numbers are this profile's.
#[derive(Clone, Copy, Debug, PartialEq, Eq)]
pub enum Reason {
    /// The piece's number is above 100,000.
    TooManyPieces = 1,
    /// The text ends before the semicolon of its last piece.
    Unterminated = 2,
    /// Outside strings and comments a byte stands that the language does not have.
    BadByte = 3,
    /// A string ends at a line feed or at the end of the text, and not at a quote.
    OpenString = 4,
    /// An `@` stands outside strings and comments: compressed data, which this profile leaves out.
    Compressed = 5,
    /// A word has more than 32 characters.
    NameTooLong = 6,
    /// A number is above 2,147,483,648.
    NumberTooLarge = 7,
    /// Brackets or the word IF stand too deep, or too many operators stand in the piece.
    TooDeep = 8,
    /// After the label, the piece begins with no statement word, and with no name that `=` or `[` follows.
    UnknownStatement = 9,
    /// A word of JESD71 stands in the piece that this profile leaves out.
    Unsupported = 10,
    /// The piece is not in the grammar.
    Syntax = 11,
    /// The statement may not stand after the earlier pieces.
    Order = 12,
    /// The piece declares a block, an action, a variable of its block or a label of its procedure that an earlier piece
    /// declares.
    Duplicate = 13,
    /// The piece names a block, a variable or a label that no piece declares.
    Undefined = 14,
    /// The piece names a variable that some block declares and that is not visible here.
    NotVisible = 15,
    /// An expression is not of the kind that its place wants.
    TypeMismatch = 16,
    /// A state is named where only RESET, IDLE, IRPAUSE or DRPAUSE may be, and it is none of these.
    NotStable = 17,
    /// An array has no element, a declaration passes a limit, or an array has more initial values than elements.
    SizeLimit = 18,
    /// The text ends, and a block is open.
    NotClosed = 19,
    /// The text ends, and it has no action.
    NothingToDo = 20,
    /// The text has more than 4,194,304 bytes.
    TooLong = 21,
}

impl Reason {
    /// The number of the reason, from 1 to 21.
    pub fn number(self) -> u8
        ensures { result ≡ reason_number self }
    {
        self as u8
    }

    /// The name of the reason, as a refusal's line has it.
    pub fn name(self) -> &'static [u8]
        ensures { result.now ≡ reason_name self }
    {
        match self {
            Reason::TooManyPieces => b"TooManyPieces",
            Reason::Unterminated => b"Unterminated",
            Reason::BadByte => b"BadByte",
            Reason::OpenString => b"OpenString",
            Reason::Compressed => b"Compressed",
            Reason::NameTooLong => b"NameTooLong",
            Reason::NumberTooLarge => b"NumberTooLarge",
            Reason::TooDeep => b"TooDeep",
            Reason::UnknownStatement => b"UnknownStatement",
            Reason::Unsupported => b"Unsupported",
            Reason::Syntax => b"Syntax",
            Reason::Order => b"Order",
            Reason::Duplicate => b"Duplicate",
            Reason::Undefined => b"Undefined",
            Reason::NotVisible => b"NotVisible",
            Reason::TypeMismatch => b"TypeMismatch",
            Reason::NotStable => b"NotStable",
            Reason::SizeLimit => b"SizeLimit",
            Reason::NotClosed => b"NotClosed",
            Reason::NothingToDo => b"NothingToDo",
            Reason::TooLong => b"TooLong",
        }
    }
}
