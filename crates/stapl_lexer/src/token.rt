//! The tokens of a piece.

use crate::Terminal;

/// What a token is: its row in the table of tokens (JESD71, statements).
#[derive(Clone, Copy, PartialEq, Eq)]
pub enum TokenKind {
    /// A letter, then letters, digits and `_`; or `CHR$`. It may be a name or a reserved word.
    Word,
    /// Decimal digits, which `E` and decimal digits may follow.
    Number,
    /// A string with both of its quotes.
    Text,
    /// `#` and binary digits. White space and comments may stand before each digit.
    Binary,
    /// `$` and hexadecimal digits. White space and comments may stand before each digit.
    Hexadecimal,
    /// A mark of one or two bytes, or a single byte that begins no token.
    Mark,
    /// The four hexadecimal digits after the word `CRC`. White space and comments may stand between them.
    Hex4,
}

/// A token, and its place: its bytes are those of the text from `start` up to `end`.
#[derive(Clone, Copy)]
pub struct Token {
    /// What the token is.
    pub kind: TokenKind,
    /// The place of its first byte.
    pub start: u32,
    /// The place after its last byte.
    pub end: u32,
    /// The value of a number, where 2147483648 stands for -2147483648; 0 for every other token.
    pub value: i32,
    /// The reserved word or the mark that it is; `None` for every other token.
    pub terminal: Option<Terminal>,
}

impl Token {
    ghost use Rattle.std.specs.Prelude.{◌≡◌, length};
    ghost use Rattle.stapl_lexer.specs.PieceTokens.{token_bytes, string_inside, LiesBetween};

    /// The bytes of a token of this text.
    pub fn bytes<'a>(&self, text: &'a [u8]) -> &'a [u8]
        requires { LiesBetween 0 (length text.now) self.now }
        ensures { result.now ≡ token_bytes text.now self.now }
    {
        &text[self.start as usize..self.end as usize]
    }

    /// What stands between the quotes of a string of this text.
    pub fn inside<'a>(&self, text: &'a [u8]) -> &'a [u8]
        requires { LiesBetween 0 (length text.now) self.now }
        ensures { result.now ≡ string_inside (token_bytes text.now self.now) }
    {
        let own = self.bytes(text);
        if own.len() < 2 {
            return &own[..0];
        }
        &own[1..own.len() - 1]
    }
}
