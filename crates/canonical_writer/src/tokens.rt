//! The tokens of canonical text.
ghost use Rattle.std.specs.Prelude.{◌≡◌, [], ◌∷◌, unwrap_or, slice_get, OnOk};
ghost use Rattle.stapl_syntax.specs.Expressions.{name, operator, mark, function};
ghost use Rattle.stapl_syntax.specs.Parts.{join, hz};
ghost use Rattle.stapl_syntax.specs.Statements.{outer, inner, simple, if_word, port};
ghost use Rattle.stapl_syntax.specs.Symbols.{Plain, Text, CheckWord};
ghost use Rattle.stapl_syntax.specs.declared.signs.Sign.TheVariants as signs;
ghost use Rattle.canonical_text.specs.PrintedTokens.{Seen, UnaryMark, state_names};
ghost use Rattle.canonical_text.specs.PrintedTokens.{operator_spelling, mark_spelling, outer_spelling, inner_spelling};
ghost use Rattle.canonical_text.specs.PrintedTokens.{simple_spelling, port_spelling, join_spelling, function_spelling};
ghost use Rattle.canonical_writer.specs.Written.{written};

use crate::writer::{Shape, Writer};
use bit_list::word_digits;
use itoa::Buffer;
use stapl_lexer::{
    BinOp, Function, InnerWord, JoinWord, Mark, Name, OuterWord, Padding, PortWord, Register,
    SimpleWord,
};
use stapl_syntax::UnOp;
use std::alloc::AllocError;

// The bytes of an operator with two operands.
#[tactic(auto, unfolding(canonical_text::specs::PrintedTokens::operator_spelling))]
fn operator_bytes(op: BinOp) -> &'static [u8]
    ensures { result.now ≡ operator_spelling op }
{
    match op {
        BinOp::Multiply => b"*",
        BinOp::Divide => b"/",
        BinOp::Remainder => b"%",
        BinOp::Add => b"+",
        BinOp::Subtract => b"-",
        BinOp::ShiftLeft => b"<<",
        BinOp::ShiftRight => b">>",
        BinOp::Less => b"<",
        BinOp::AtMost => b"<=",
        BinOp::Greater => b">",
        BinOp::AtLeast => b">=",
        BinOp::Equal => b"==",
        BinOp::NotEqual => b"!=",
        BinOp::BitAnd => b"&",
        BinOp::BitXor => b"^",
        BinOp::BitOr => b"|",
        BinOp::And => b"&&",
        BinOp::Or => b"||",
    }
}

#[tactic(auto, unfolding(canonical_text::specs::PrintedTokens::outer_spelling))]
fn outer_bytes(word: OuterWord) -> &'static [u8]
    ensures { result.now ≡ outer_spelling word }
{
    match word {
        OuterWord::Note => b"NOTE",
        OuterWord::Action => b"ACTION",
        OuterWord::Procedure => b"PROCEDURE",
        OuterWord::Data => b"DATA",
        OuterWord::EndData => b"ENDDATA",
        OuterWord::Crc => b"CRC",
    }
}

#[tactic(auto, unfolding(canonical_text::specs::PrintedTokens::inner_spelling))]
fn inner_bytes(word: InnerWord) -> &'static [u8]
    ensures { result.now ≡ inner_spelling word }
{
    match word {
        InnerWord::EndProcedure => b"ENDPROC",
        InnerWord::Boolean => b"BOOLEAN",
        InnerWord::Integer => b"INTEGER",
    }
}

#[tactic(auto, unfolding(canonical_text::specs::PrintedTokens::simple_spelling))]
fn simple_bytes(word: SimpleWord) -> &'static [u8]
    ensures { result.now ≡ simple_spelling word }
{
    match word {
        SimpleWord::Call => b"CALL",
        SimpleWord::Goto => b"GOTO",
        SimpleWord::For => b"FOR",
        SimpleWord::Next => b"NEXT",
        SimpleWord::Push => b"PUSH",
        SimpleWord::Pop => b"POP",
        SimpleWord::Print => b"PRINT",
        SimpleWord::Export => b"EXPORT",
        SimpleWord::Exit => b"EXIT",
    }
}

#[tactic(auto, unfolding(canonical_text::specs::PrintedTokens::port_spelling))]
fn port_bytes(word: PortWord) -> &'static [u8]
    ensures { result.now ≡ port_spelling word }
{
    match word {
        PortWord::Scan(Register::Data) => b"DRSCAN",
        PortWord::Scan(Register::Instruction) => b"IRSCAN",
        PortWord::Stop(Register::Data) => b"DRSTOP",
        PortWord::Stop(Register::Instruction) => b"IRSTOP",
        PortWord::Pad(Padding::PreData) => b"PREDR",
        PortWord::Pad(Padding::PostData) => b"POSTDR",
        PortWord::Pad(Padding::PreInstruction) => b"PREIR",
        PortWord::Pad(Padding::PostInstruction) => b"POSTIR",
        PortWord::State => b"STATE",
        PortWord::Wait => b"WAIT",
        PortWord::Frequency => b"FREQUENCY",
    }
}

#[tactic(auto, unfolding(canonical_text::specs::PrintedTokens::join_spelling))]
fn join_bytes(word: JoinWord) -> &'static [u8]
    ensures { result.now ≡ join_spelling word }
{
    match word {
        JoinWord::Capture => b"CAPTURE",
        JoinWord::Compare => b"COMPARE",
        JoinWord::Cycles => b"CYCLES",
        JoinWord::Optional => b"OPTIONAL",
        JoinWord::Recommended => b"RECOMMENDED",
        JoinWord::Step => b"STEP",
        JoinWord::Then => b"THEN",
        JoinWord::To => b"TO",
        JoinWord::Usec => b"USEC",
        JoinWord::Uses => b"USES",
    }
}

#[tactic(auto, unfolding(canonical_text::specs::PrintedTokens::function_spelling))]
fn function_bytes(function: Function) -> &'static [u8]
    ensures { result.now ≡ function_spelling function }
{
    match function {
        Function::Abs => b"ABS",
        Function::Bool => b"BOOL",
        Function::Character => b"CHR$",
        Function::Int => b"INT",
    }
}

// The name of a state, by its number; nothing if it is the number of no state.
fn state_bytes(state: u8) -> &'static [u8]
    ensures { result.now ≡ unwrap_or (slice_get state_names state) [] }
{
    match state {
        0 => b"RESET",
        1 => b"IDLE",
        2 => b"DRSELECT",
        3 => b"DRCAPTURE",
        4 => b"DRSHIFT",
        5 => b"DREXIT1",
        6 => b"DRPAUSE",
        7 => b"DREXIT2",
        8 => b"DRUPDATE",
        9 => b"IRSELECT",
        10 => b"IRCAPTURE",
        11 => b"IRSHIFT",
        12 => b"IREXIT1",
        13 => b"IRPAUSE",
        14 => b"IREXIT2",
        15 => b"IRUPDATE",
        _ => b"",
    }
}

#[tactic(auto, unfolding(canonical_text::specs::PrintedTokens::sign_spelling, canonical_text::specs::PrintedTokens::mark_spelling, canonical_text::specs::Spacing::leans_on, canonical_text::specs::Spacing::leans_back, canonical_text::specs::Spacing::is_function, canonical_text::specs::Spacing::is_left_round))]
impl Writer {
    pub(crate) fn put_outer(&mut self, word: OuterWord) -> Result<(), AllocError>
        ensures { OnOk result (self.new ≡ written self.old (Seen (outer word) ∷ [])) }
    {
        self.put(outer_bytes(word), Shape::Usual)
    }

    pub(crate) fn put_inner(&mut self, word: InnerWord) -> Result<(), AllocError>
        ensures { OnOk result (self.new ≡ written self.old (Seen (inner word) ∷ [])) }
    {
        self.put(inner_bytes(word), Shape::Usual)
    }

    pub(crate) fn put_simple(&mut self, word: SimpleWord) -> Result<(), AllocError>
        ensures { OnOk result (self.new ≡ written self.old (Seen (simple word) ∷ [])) }
    {
        self.put(simple_bytes(word), Shape::Usual)
    }

    /// IF.
    pub(crate) fn put_if(&mut self) -> Result<(), AllocError>
        ensures { OnOk result (self.new ≡ written self.old (Seen if_word ∷ [])) }
    {
        self.put(b"IF", Shape::Usual)
    }

    pub(crate) fn put_port(&mut self, word: PortWord) -> Result<(), AllocError>
        ensures { OnOk result (self.new ≡ written self.old (Seen (port word) ∷ [])) }
    {
        self.put(port_bytes(word), Shape::Usual)
    }

    pub(crate) fn put_join(&mut self, word: JoinWord) -> Result<(), AllocError>
        ensures { OnOk result (self.new ≡ written self.old (Seen (join word) ∷ [])) }
    {
        self.put(join_bytes(word), Shape::Usual)
    }

    pub(crate) fn put_function(&mut self, word: Function) -> Result<(), AllocError>
        ensures { OnOk result (self.new ≡ written self.old (Seen (function word) ∷ [])) }
    {
        self.put(function_bytes(word), Shape::Function)
    }

    /// A state, by its number.
    pub(crate) fn put_state(&mut self, state: u8) -> Result<(), AllocError>
        ensures { OnOk result (self.new ≡ written self.old (Seen (Plain (signs.State state)) ∷ [])) }
    {
        self.put(state_bytes(state), Shape::Usual)
    }

    /// A bracket, a comma, a colon, `=` or two points.
    pub(crate) fn put_mark(&mut self, m: Mark) -> Result<(), AllocError>
        ensures { OnOk result (self.new ≡ written self.old (Seen (mark m) ∷ [])) }
    {
        match m {
            Mark::Tilde => self.put(b"~", Shape::Usual),
            Mark::Exclamation => self.put(b"!", Shape::Usual),
            Mark::LeftRound => self.put(b"(", Shape::Round),
            Mark::RightRound => self.put(b")", Shape::LeansBack),
            Mark::LeftSquare => self.put(b"[", Shape::LeansBoth),
            Mark::RightSquare => self.put(b"]", Shape::LeansBack),
            Mark::Dots => self.put(b"..", Shape::LeansBoth),
            Mark::Comma => self.put(b",", Shape::LeansBack),
            Mark::Equals => self.put(b"=", Shape::Usual),
            Mark::Colon => self.put(b":", Shape::LeansBack),
        }
    }

    /// An operator between two operands.
    pub(crate) fn put_operator(&mut self, op: BinOp) -> Result<(), AllocError>
        ensures { OnOk result (self.new ≡ written self.old (Seen (operator op) ∷ [])) }
    {
        self.put(operator_bytes(op), Shape::Usual)
    }

    /// The mark of an operator with one operand.
    pub(crate) fn put_unary(&mut self, op: UnOp) -> Result<(), AllocError>
        ensures { OnOk result (self.new ≡ written self.old (UnaryMark op ∷ [])) }
    {
        match op {
            UnOp::Negate => self.put(b"-", Shape::LeansOn),
            UnOp::Complement => self.put(b"~", Shape::LeansOn),
            UnOp::Not => self.put(b"!", Shape::LeansOn),
        }
    }

    pub(crate) fn put_name(&mut self, v: &Name) -> Result<(), AllocError>
        ensures { OnOk result (self.new ≡ written self.old (Seen (name v.now) ∷ [])) }
    {
        self.put(v.bytes(), Shape::Usual)
    }

    /// HZ, which is no reserved word.
    pub(crate) fn put_hz(&mut self) -> Result<(), AllocError>
        ensures { OnOk result (self.new ≡ written self.old (Seen hz ∷ [])) }
    {
        self.put(b"HZ", Shape::Usual)
    }

    /// A number in decimal, without its sign.
    pub(crate) fn put_number(&mut self, n: i32) -> Result<(), AllocError>
        ensures { OnOk result (self.new ≡ written self.old (Seen (Plain (signs.Number n)) ∷ [])) }
    {
        let mut digits = Buffer::new();
        self.put(digits.format(n.unsigned_abs()).as_bytes(), Shape::Usual)
    }

    /// A string in its quotes.
    pub(crate) fn put_text(&mut self, bytes: &[u8]) -> Result<(), AllocError>
        ensures { OnOk result (self.new ≡ written self.old (Seen (Text bytes.now) ∷ [])) }
    {
        self.put(b"\"", Shape::Usual)?;
        self.put_bytes(bytes)?;
        self.put_bytes(b"\"")
    }

    /// The four digits after CRC.
    pub(crate) fn put_check_word(&mut self, word: u16) -> Result<(), AllocError>
        ensures { OnOk result (self.new ≡ written self.old (Seen (CheckWord word) ∷ [])) }
    {
        let digits = word_digits(u64::from(word));
        self.put(&digits[12..], Shape::Usual)
    }
}
