//! The tokens between two places of a text, good and bad ones.
ghost use Rattle.std.specs.Prelude.{◌≡◌, ℕ, ℤ, nat_lt, ◌≤◌, ◌<◌, ◌+◌, ◌++◌, ◌∷◌, [], ◌&&◌, ◌||◌, length, take, drop, slice_range, IfOk, OnOk, IfSome, IfNone, Option, All};
ghost use Rattle.stapl_lexer.specs.PieceTokens.{AreBlanks, BeginsWith, first_word, terminal_of, LiesBetween};
ghost use Rattle.stapl_lexer.specs.PieceFaults.{is_large_number};
ghost use Rattle.stapl_lexer.specs.TokenReading.{IsFront, held_value, AreRead};
ghost use Rattle.stapl_lexer.specs.Pieces.{text_limit};

use crate::front::{Front, front_of, kind_at};
use crate::number::GREATEST;
use crate::run::{blank_len, spells_word};
use crate::spelling::{mark_terminal, word_terminal};
use crate::{Terminal, Token, TokenKind};
use std::alloc::{AllocError, Global};

// A token, whether it is good, and whether it is a number that is too large.
#[derive(Clone, Copy)]
struct Lexeme {
    token: Token,
    good: bool,
    large: bool,
}

// The value of a token: none is held of a number that is too large.
fn held_value(value: u32) -> i32
    ensures { result ≡ held_value value }
{
    if value > GREATEST {
        return 0;
    }
    value.cast_signed()
}

// The reserved word or the mark that a token is, if it is one.
fn terminal_of(kind: TokenKind, own: &[u8]) -> Option<Terminal>
    ensures { result ≡ terminal_of kind own.now }
{
    match kind {
        TokenKind::Word => word_terminal(own),
        TokenKind::Mark => mark_terminal(own),
        _ => None,
    }
}

// The token that stands at a place, with the bytes from there on.
fn placed(kind: TokenKind, front: Front, start: usize, bytes: &[u8]) -> Lexeme
    requires within { front.len ≤ length bytes.now }
    requires small { start + front.len ≤ text_limit }
    ensures kind { result.token.kind ≡ kind }
    ensures start { result.token.start ≡ start }
    ensures end { result.token.end ≡ start + front.len }
    ensures value { result.token.value ≡ held_value front.value }
    ensures terminal { result.token.terminal ≡ terminal_of kind (take front.len bytes.now) }
    ensures good { result.good ≡ front.good }
    ensures large { result.large ≡ nat_lt 2147483648 front.value }
{
    Lexeme {
        token: Token {
            kind,
            start: start as u32,
            end: (start + front.len) as u32,
            value: held_value(front.value),
            terminal: terminal_of(kind, &bytes[..front.len]),
        },
        good: front.good,
        large: front.value > GREATEST,
    }
}

// The next token between two places, after white space and comments; none where they hold nothing else.
fn next_lexeme(text: &[u8], is_crc: Option<bool>, at: usize, limit: usize) -> Option<Lexeme>
    requires ordered { at ≤ limit }
    requires within { limit ≤ length text.now }
    requires small { length text.now ≤ text_limit }
    ensures some { IfSome result (λ lexeme.
        BeginsWith text.now is_crc at limit (record { token = lexeme.token; good = lexeme.good })) }
    ensures large { IfSome result (λ lexeme. lexeme.large ≡ is_large_number text.now lexeme.token) }
    ensures none { IfNone result (AreBlanks (slice_range text.now at limit) []) }
{
    let start = at + blank_len(&text[at..limit]);
    if start == limit {
        return None;
    }
    let bytes = &text[start..limit];
    let kind = kind_at(is_crc, bytes[0]);
    let front = front_of(kind, is_crc, bytes);
    Some(placed(kind, front, start, bytes))
}

// Whether the first word is CRC, after one more token.
fn first_word(is_crc: Option<bool>, kind: TokenKind, own: &[u8]) -> Option<bool>
    ensures { result ≡ first_word is_crc kind own.now }
{
    match is_crc {
        None => match kind {
            TokenKind::Word => Some(spells_word("CRC", own)),
            _ => None,
        },
        Some(is_crc) => Some(is_crc),
    }
}

// Most pieces have no more tokens, and get their room at once.
const ROOM: usize = 16;

/// The tokens between two places of a text.
#[derive(Drop)]
pub(crate) struct Lexed {
    /// The tokens, good and bad ones.
    pub(crate) tokens: Vec<Token>,
    /// Whether all of them are good.
    pub(crate) good: bool,
    /// Whether one is a number that is too large.
    pub(crate) large: bool,
}

impl Lexed {
    // One token more.
    fn push(&mut self, lexeme: Lexeme) -> Result<(), AllocError>
        ensures tokens { OnOk result (self.new.tokens.items ≡ self.old.tokens.items ++ lexeme.token ∷ []) }
        ensures good { OnOk result (self.new.good ≡ (self.old.good && lexeme.good)) }
        ensures large { OnOk result (self.new.large ≡ (self.old.large || lexeme.large)) }
    {
        self.tokens.push(lexeme.token)?;
        self.good = self.good && lexeme.good;
        self.large = self.large || lexeme.large;
        Ok(())
    }
}

// All tokens between two places.
pub(crate) fn read_lexemes(
    alloc: Global,
    text: &[u8],
    start: usize,
    limit: usize,
) -> Result<Lexed, AllocError>
    requires ordered { start ≤ limit }
    requires within { limit ≤ length text.now }
    requires small { length text.now ≤ text_limit }
    ensures read { IfOk result (λ lexed. AreRead text.now start limit lexed.tokens.items lexed.good lexed.large) }
    ensures lie { IfOk result (λ lexed. All (LiesBetween start limit) lexed.tokens.items) }
{
    let mut lexed = Lexed {
        tokens: Vec::with_capacity(alloc, ROOM)?,
        good: true,
        large: false,
    };
    let mut is_crc = None;
    let mut at = start;
    'lexemes: while let Some(lexeme) = next_lexeme(text, is_crc, at, limit) {
        let token = lexeme.token;
        at = token.end as usize;
        is_crc = first_word(is_crc, token.kind, token.bytes(text));
        lexed.push(lexeme)?;
    }
    Ok(lexed)
}
