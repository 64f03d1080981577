//! Words and marks by their spelling.
ghost use Rattle.std.specs.Prelude.{◌≡◌, ℕ, ◌∷◌, [], map};
ghost use Rattle.std.specs.Str.{bytes_eq};
ghost use Rattle.stapl_lexer.specs.Marks.{mark_terminal};
ghost use Rattle.stapl_lexer.specs.ReservedWords.{spells_word, word_terminal};
ghost use Rattle.stapl_lexer.specs.Terminals.{terminal_in};

use crate::run::spells_word;
use crate::terminal::{
    BinOp, Function, InnerWord, JoinWord, Mark, OuterWord, Padding, PortWord, Register, SimpleWord,
    Terminal,
};

// The reserved words, each with what it is, by their length.
static WORDS_OF_2: [(&str, Terminal); 2] = [
    ("IF", Terminal::If),
    ("TO", Terminal::Join(JoinWord::To)),
];

static WORDS_OF_3: [(&str, Terminal); 6] = [
    ("CRC", Terminal::Outer(OuterWord::Crc)),
    ("FOR", Terminal::Simple(SimpleWord::For)),
    ("POP", Terminal::Simple(SimpleWord::Pop)),
    ("ABS", Terminal::Function(Function::Abs)),
    ("INT", Terminal::Function(Function::Int)),
    ("MAX", Terminal::LeftOutWord),
];

static WORDS_OF_4: [(&str, Terminal); 20] = [
    ("NOTE", Terminal::Outer(OuterWord::Note)),
    ("DATA", Terminal::Outer(OuterWord::Data)),
    ("CALL", Terminal::Simple(SimpleWord::Call)),
    ("GOTO", Terminal::Simple(SimpleWord::Goto)),
    ("NEXT", Terminal::Simple(SimpleWord::Next)),
    ("PUSH", Terminal::Simple(SimpleWord::Push)),
    ("EXIT", Terminal::Simple(SimpleWord::Exit)),
    ("WAIT", Terminal::Port(PortWord::Wait)),
    ("STEP", Terminal::Join(JoinWord::Step)),
    ("THEN", Terminal::Join(JoinWord::Then)),
    ("USEC", Terminal::Join(JoinWord::Usec)),
    ("USES", Terminal::Join(JoinWord::Uses)),
    ("BOOL", Terminal::Function(Function::Bool)),
    ("CHR$", Terminal::Function(Function::Character)),
    ("IDLE", Terminal::State(1)),
    ("TRST", Terminal::LeftOutStatement),
    ("VMAP", Terminal::LeftOutStatement),
    ("CEIL", Terminal::LeftOutWord),
    ("LOG2", Terminal::LeftOutWord),
    ("SQRT", Terminal::LeftOutWord),
];

static WORDS_OF_5: [(&str, Terminal); 6] = [
    ("PRINT", Terminal::Simple(SimpleWord::Print)),
    ("PREDR", Terminal::Port(PortWord::Pad(Padding::PreData))),
    (
        "PREIR",
        Terminal::Port(PortWord::Pad(Padding::PreInstruction)),
    ),
    ("STATE", Terminal::Port(PortWord::State)),
    ("RESET", Terminal::State(0)),
    ("FLOOR", Terminal::LeftOutWord),
];

static WORDS_OF_6: [(&str, Terminal); 10] = [
    ("ACTION", Terminal::Outer(OuterWord::Action)),
    ("EXPORT", Terminal::Simple(SimpleWord::Export)),
    ("DRSCAN", Terminal::Port(PortWord::Scan(Register::Data))),
    (
        "IRSCAN",
        Terminal::Port(PortWord::Scan(Register::Instruction)),
    ),
    ("DRSTOP", Terminal::Port(PortWord::Stop(Register::Data))),
    (
        "IRSTOP",
        Terminal::Port(PortWord::Stop(Register::Instruction)),
    ),
    ("POSTDR", Terminal::Port(PortWord::Pad(Padding::PostData))),
    (
        "POSTIR",
        Terminal::Port(PortWord::Pad(Padding::PostInstruction)),
    ),
    ("CYCLES", Terminal::Join(JoinWord::Cycles)),
    ("VECTOR", Terminal::LeftOutStatement),
];

static WORDS_OF_7: [(&str, Terminal); 14] = [
    ("ENDDATA", Terminal::Outer(OuterWord::EndData)),
    ("ENDPROC", Terminal::Inner(InnerWord::EndProcedure)),
    ("BOOLEAN", Terminal::Inner(InnerWord::Boolean)),
    ("INTEGER", Terminal::Inner(InnerWord::Integer)),
    ("CAPTURE", Terminal::Join(JoinWord::Capture)),
    ("COMPARE", Terminal::Join(JoinWord::Compare)),
    ("DRSHIFT", Terminal::State(4)),
    ("DREXIT1", Terminal::State(5)),
    ("DRPAUSE", Terminal::State(6)),
    ("DREXIT2", Terminal::State(7)),
    ("IRSHIFT", Terminal::State(11)),
    ("IREXIT1", Terminal::State(12)),
    ("IRPAUSE", Terminal::State(13)),
    ("IREXIT2", Terminal::State(14)),
];

static WORDS_OF_8: [(&str, Terminal); 5] = [
    ("OPTIONAL", Terminal::Join(JoinWord::Optional)),
    ("DRSELECT", Terminal::State(2)),
    ("DRUPDATE", Terminal::State(8)),
    ("IRSELECT", Terminal::State(9)),
    ("IRUPDATE", Terminal::State(15)),
];

static WORDS_OF_9: [(&str, Terminal); 4] = [
    ("PROCEDURE", Terminal::Outer(OuterWord::Procedure)),
    ("FREQUENCY", Terminal::Port(PortWord::Frequency)),
    ("DRCAPTURE", Terminal::State(3)),
    ("IRCAPTURE", Terminal::State(10)),
];

static WORDS_OF_11: [(&str, Terminal); 1] = [(
    "RECOMMENDED",
    Terminal::Join(JoinWord::Recommended),
)];

static DOUBLE_MARKS: [(&str, Terminal); 9] = [
    ("<<", Terminal::Operator(BinOp::ShiftLeft)),
    (">>", Terminal::Operator(BinOp::ShiftRight)),
    ("<=", Terminal::Operator(BinOp::AtMost)),
    (">=", Terminal::Operator(BinOp::AtLeast)),
    ("==", Terminal::Operator(BinOp::Equal)),
    ("!=", Terminal::Operator(BinOp::NotEqual)),
    ("&&", Terminal::Operator(BinOp::And)),
    ("||", Terminal::Operator(BinOp::Or)),
    ("..", Terminal::Mark(Mark::Dots)),
];

// What word of these the bytes spell; letter case is ignored.
fn word_in(words: &[(&str, Terminal)], own: &[u8]) -> Option<Terminal>
    ensures { result ≡ terminal_in (λ word. spells_word word own.now) (map (λ row. (row.0.now, row.1)) words.now) }
{
    for word in words {
        if spells_word(word.0, own) {
            return Some(word.1);
        }
    }
    None
}

// What reserved word the bytes spell; letter case is ignored. They are compared with the words of their length alone.
pub(crate) fn word_terminal(own: &[u8]) -> Option<Terminal>
    ensures { result ≡ word_terminal own.now }
{
    match own.len() {
        2 => word_in(&WORDS_OF_2, own),
        3 => word_in(&WORDS_OF_3, own),
        4 => word_in(&WORDS_OF_4, own),
        5 => word_in(&WORDS_OF_5, own),
        6 => word_in(&WORDS_OF_6, own),
        7 => word_in(&WORDS_OF_7, own),
        8 => word_in(&WORDS_OF_8, own),
        9 => word_in(&WORDS_OF_9, own),
        11 => word_in(&WORDS_OF_11, own),
        _ => None,
    }
}

// What mark of these the bytes are.
fn mark_in(marks: &[(&str, Terminal)], own: &[u8]) -> Option<Terminal>
    ensures { result ≡ terminal_in (λ mark. bytes_eq mark own.now) (map (λ row. (row.0.now, row.1)) marks.now) }
{
    for mark in marks {
        if mark.0.as_bytes() == own {
            return Some(mark.1);
        }
    }
    None
}

// What mark a single byte is.
#[tactic(auto, unfolding(crate::specs::Marks::mark_terminal))]
fn single_mark(byte: u8) -> Option<Terminal>
    ensures { result ≡ mark_terminal (byte ∷ []) }
{
    match byte {
        b'*' => Some(Terminal::Operator(BinOp::Multiply)),
        b'/' => Some(Terminal::Operator(BinOp::Divide)),
        b'%' => Some(Terminal::Operator(BinOp::Remainder)),
        b'+' => Some(Terminal::Operator(BinOp::Add)),
        b'-' => Some(Terminal::Operator(BinOp::Subtract)),
        b'<' => Some(Terminal::Operator(BinOp::Less)),
        b'>' => Some(Terminal::Operator(BinOp::Greater)),
        b'&' => Some(Terminal::Operator(BinOp::BitAnd)),
        b'^' => Some(Terminal::Operator(BinOp::BitXor)),
        b'|' => Some(Terminal::Operator(BinOp::BitOr)),
        b'~' => Some(Terminal::Mark(Mark::Tilde)),
        b'!' => Some(Terminal::Mark(Mark::Exclamation)),
        b'(' => Some(Terminal::Mark(Mark::LeftRound)),
        b')' => Some(Terminal::Mark(Mark::RightRound)),
        b'[' => Some(Terminal::Mark(Mark::LeftSquare)),
        b']' => Some(Terminal::Mark(Mark::RightSquare)),
        b',' => Some(Terminal::Mark(Mark::Comma)),
        b'=' => Some(Terminal::Mark(Mark::Equals)),
        b':' => Some(Terminal::Mark(Mark::Colon)),
        _ => None,
    }
}

// What mark the bytes are.
pub(crate) fn mark_terminal(own: &[u8]) -> Option<Terminal>
    ensures { result ≡ mark_terminal own.now }
{
    match own.len() {
        1 => single_mark(own[0]),
        2 => mark_in(&DOUBLE_MARKS, own),
        _ => None,
    }
}
