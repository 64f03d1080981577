//! Bytes that are written token by token, with the spaces between the tokens.
ghost use Rattle.std.specs.Prelude.{◌≡◌, ◌∷◌, ◌++◌, [], OnOk};
ghost use Rattle.stapl_syntax.specs.Symbols.{Literal};
ghost use Rattle.canonical_text.specs.PrintedTokens.{Seen};
ghost use Rattle.canonical_writer.specs.Written.{shapes_touch, put_as, line_begun, written};

use crate::digits::{push_binary_digits, push_hex_digits};
use bit_list::Bits;
use std::alloc::AllocError;
use std::marker::Model;

/// How a token bears on the spaces around it.
#[derive(Clone, Copy)]
pub(crate) enum Shape {
    /// No token has been written in this line.
    Nothing,
    /// A space on both sides.
    Usual,
    /// No space before it.
    LeansBack,
    /// No space after it.
    LeansOn,
    /// No space around it.
    LeansBoth,
    /// ABS, INT, BOOL or `CHR$`.
    Function,
    /// `(`.
    Round,
}

// Whether no space stands between two tokens.
#[tactic(auto, unfolding(crate::specs::Written::shapes_touch))]
fn touch(last: Shape, next: Shape) -> bool
    ensures { result ≡ shapes_touch last next }
{
    match (last, next) {
        (Shape::Nothing | Shape::LeansOn | Shape::LeansBoth | Shape::Round, _) => true,
        (Shape::Function, Shape::Round) => true,
        (_, Shape::LeansBack | Shape::LeansBoth) => true,
        _ => false,
    }
}

/// A text that is being written.
#[derive(Drop)]
pub struct Writer {
    bytes: Vec<u8>,
    last: Shape,
}

impl Model for Writer {
    ghost use Rattle.canonical_writer.specs.Written.{Written};

    ghost Value = { Written };

    ghost view = { λ w. record { bytes = w.bytes.items; last = w.last } };
}

impl Writer {
    /// A writer that has written these bytes, and goes on in a new line.
    pub fn over(bytes: Vec<u8>) -> Writer
        ensures { result ≡ line_begun bytes.items }
    {
        Writer {
            bytes,
            last: Shape::Nothing,
        }
    }

    /// What is written.
    pub fn bytes(&self) -> &[u8]
        ensures { result.now ≡ self.now.bytes }
    {
        &self.bytes
    }

    /// Gives what is written.
    pub fn into_bytes(self) -> Vec<u8>
        ensures { result.items ≡ self.bytes }
    {
        let Writer { bytes, last: _ } = self;
        bytes
    }

    /// Begins a line: no space stands before its first token.
    pub(crate) fn begin_line(&mut self)
        ensures { self.new ≡ line_begun self.old.bytes }
    {
        self.last = Shape::Nothing;
    }

    /// Puts bytes as they are, after the last token.
    pub(crate) fn put_bytes(&mut self, bytes: &[u8]) -> Result<(), AllocError>
        ensures { OnOk result (self.new ≡ record self.old { bytes = self.old.bytes ++ bytes.now }) }
    {
        self.bytes.extend_from_slice(bytes)?;
        Ok(())
    }

    /// Puts the bytes of a token of this shape.
    pub(crate) fn put(&mut self, bytes: &[u8], shape: Shape) -> Result<(), AllocError>
        ensures { OnOk result (self.new ≡ put_as self.old bytes.now shape) }
    {
        if !touch(self.last, shape) {
            self.bytes.push(b' ')?;
        }
        self.bytes.extend_from_slice(bytes)?;
        self.last = shape;
        Ok(())
    }

    /// Puts a literal: in hexadecimal digits if its length is a multiple of 4, and else in binary ones.
    #[tactic(auto, unfolding(canonical_text::specs::Spacing::leans_on, canonical_text::specs::Spacing::leans_back, canonical_text::specs::Spacing::is_function, canonical_text::specs::Spacing::is_left_round))]
    pub(crate) fn put_literal(&mut self, bits: &Bits) -> Result<(), AllocError>
        ensures { OnOk result (self.new ≡ written self.old (Seen (Literal bits.now) ∷ [])) }
    {
        if bits.len() % 4 == 0 {
            self.put(b"$", Shape::Usual)?;
            push_hex_digits(&mut self.bytes, bits)
        } else {
            self.put(b"#", Shape::Usual)?;
            push_binary_digits(&mut self.bytes, bits)
        }
    }
}
