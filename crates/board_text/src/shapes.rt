//! The shapes of lines.
ghost use Rattle.std.specs.Prelude.{◌≡◌};
ghost use Rattle.board_text.specs.Lines.{texts};
ghost use Rattle.board_text.specs.Shapes.{spelling, is_spelled, fits, places_of, shape_of};

use crate::digits::{is_constant_word, is_identity_word, is_opcode_word};
use base::is_decimal;
use dev_card::Kind;
use stapl_lexer::Name;

// The key words.
#[derive(Clone, Copy)]
pub enum KeyWord {
    Plain,
    Regs,
    Flash,
    Reg,
    Id,
    Keep,
    Const,
    Erase,
    Addr,
    Prog,
    Read,
    Words,
    Width,
    Busy,
    Fill,
}

// What stands at a place of a line.
#[derive(Clone, Copy)]
pub enum Place {
    Key(KeyWord),
    Name,
    // a decimal number
    Number,
    Opcode,
    Identity,
    // the digits of a constant
    Constant,
}

// The shapes of a line: of a device, with an identity or without, and of a register, with a constant or without.
#[derive(Clone, Copy)]
pub enum Shape {
    Device { kind: Kind, identified: bool },
    Register { constant: bool },
}

static PLAIN: [Place; 3] = [Place::Key(KeyWord::Plain), Place::Name, Place::Number];

static IDENTIFIED_PLAIN: [Place; 6] = [
    Place::Key(KeyWord::Plain),
    Place::Name,
    Place::Number,
    Place::Key(KeyWord::Id),
    Place::Identity,
    Place::Opcode,
];

static REGS: [Place; 3] = [Place::Key(KeyWord::Regs), Place::Name, Place::Number];

static IDENTIFIED_REGS: [Place; 6] = [
    Place::Key(KeyWord::Regs),
    Place::Name,
    Place::Number,
    Place::Key(KeyWord::Id),
    Place::Identity,
    Place::Opcode,
];

static FLASH: [Place; 19] = [
    Place::Key(KeyWord::Flash),
    Place::Name,
    Place::Number,
    Place::Key(KeyWord::Erase),
    Place::Opcode,
    Place::Key(KeyWord::Addr),
    Place::Opcode,
    Place::Key(KeyWord::Prog),
    Place::Opcode,
    Place::Key(KeyWord::Read),
    Place::Opcode,
    Place::Key(KeyWord::Words),
    Place::Number,
    Place::Key(KeyWord::Width),
    Place::Number,
    Place::Key(KeyWord::Busy),
    Place::Number,
    Place::Key(KeyWord::Fill),
    Place::Number,
];

static IDENTIFIED_FLASH: [Place; 22] = [
    Place::Key(KeyWord::Flash),
    Place::Name,
    Place::Number,
    Place::Key(KeyWord::Id),
    Place::Identity,
    Place::Opcode,
    Place::Key(KeyWord::Erase),
    Place::Opcode,
    Place::Key(KeyWord::Addr),
    Place::Opcode,
    Place::Key(KeyWord::Prog),
    Place::Opcode,
    Place::Key(KeyWord::Read),
    Place::Opcode,
    Place::Key(KeyWord::Words),
    Place::Number,
    Place::Key(KeyWord::Width),
    Place::Number,
    Place::Key(KeyWord::Busy),
    Place::Number,
    Place::Key(KeyWord::Fill),
    Place::Number,
];

static KEPT_REGISTER: [Place; 5] = [
    Place::Key(KeyWord::Reg),
    Place::Name,
    Place::Opcode,
    Place::Number,
    Place::Key(KeyWord::Keep),
];

static CONSTANT_REGISTER: [Place; 6] = [
    Place::Key(KeyWord::Reg),
    Place::Name,
    Place::Opcode,
    Place::Number,
    Place::Key(KeyWord::Const),
    Place::Constant,
];

static SHAPES: [Shape; 8] = [
    Shape::Device {
        kind: Kind::Plain,
        identified: false,
    },
    Shape::Device {
        kind: Kind::Plain,
        identified: true,
    },
    Shape::Device {
        kind: Kind::Regs,
        identified: false,
    },
    Shape::Device {
        kind: Kind::Regs,
        identified: true,
    },
    Shape::Device {
        kind: Kind::Flash,
        identified: false,
    },
    Shape::Device {
        kind: Kind::Flash,
        identified: true,
    },
    Shape::Register { constant: false },
    Shape::Register { constant: true },
];

fn spelling(key: KeyWord) -> &'static [u8]
    ensures { result.now ≡ spelling key }
{
    match key {
        KeyWord::Plain => b"plain",
        KeyWord::Regs => b"regs",
        KeyWord::Flash => b"flash",
        KeyWord::Reg => b"reg",
        KeyWord::Id => b"id",
        KeyWord::Keep => b"keep",
        KeyWord::Const => b"const",
        KeyWord::Erase => b"erase",
        KeyWord::Addr => b"addr",
        KeyWord::Prog => b"prog",
        KeyWord::Read => b"read",
        KeyWord::Words => b"words",
        KeyWord::Width => b"width",
        KeyWord::Busy => b"busy",
        KeyWord::Fill => b"fill",
    }
}

fn places_of(shape: Shape) -> &'static [Place]
    ensures { result.now ≡ places_of shape }
{
    match shape {
        Shape::Device {
            kind: Kind::Plain,
            identified: false,
        } => &PLAIN,
        Shape::Device {
            kind: Kind::Plain,
            identified: true,
        } => &IDENTIFIED_PLAIN,
        Shape::Device {
            kind: Kind::Regs,
            identified: false,
        } => &REGS,
        Shape::Device {
            kind: Kind::Regs,
            identified: true,
        } => &IDENTIFIED_REGS,
        Shape::Device {
            kind: Kind::Flash,
            identified: false,
        } => &FLASH,
        Shape::Device {
            kind: Kind::Flash,
            identified: true,
        } => &IDENTIFIED_FLASH,
        Shape::Register { constant: false } => &KEPT_REGISTER,
        Shape::Register { constant: true } => &CONSTANT_REGISTER,
    }
}

// Whether a word is spelled as its place wants.
fn is_spelled(place: Place, word: &[u8]) -> bool
    ensures { result ≡ is_spelled place word.now }
{
    match place {
        Place::Key(key) => word == spelling(key),
        Place::Name => Name::read(word).is_some(),
        Place::Number => is_decimal(word),
        Place::Opcode => is_opcode_word(word),
        Place::Identity => is_identity_word(word),
        Place::Constant => is_constant_word(word),
    }
}

// Whether words are as many as the places, and each is spelled as its place wants.
fn fits(places: &[Place], words: &[&[u8]]) -> bool
    ensures { result ≡ fits places.now (texts words.now) }
{
    if places.len() != words.len() {
        return false;
    }
    for i in 0..places.len() {
        if !is_spelled(places[i], words[i]) {
            return false;
        }
    }
    true
}

fn has_shape(shape: Shape, words: &[&[u8]]) -> bool
    ensures { result ≡ fits (places_of shape) (texts words.now) }
{
    fits(places_of(shape), words)
}

// The shape that words have.
pub fn shape_of(words: &[&[u8]]) -> Option<Shape>
    ensures { result ≡ shape_of (texts words.now) }
{
    SHAPES
        .iter()
        .copied()
        .find(|shape| has_shape(*shape, words))
}
