//! The digits of literals, and those after the word `CRC`.
ghost use Rattle.std.specs.Prelude.{◌≡◌, ℕ, ◌≤◌, ◌<◌, ◌∷◌, List, true, false, if◌then◌else◌, length, IfSome, IfNone, IfOk};
ghost use Rattle.std.specs.List.{list_all};
ghost use Rattle.stapl_lexer.specs.PieceTokens.{is_literal_digit, HasNoDigit, digits_in};
ghost use Rattle.stapl_lexer.specs.TokenReading.{IsNextDigit, IsSpacedFront};
ghost use Rattle.stapl_lexer.specs.Pieces.{text_limit};

use crate::TokenKind;
use crate::run::{blank_len, byte_at};
use std::alloc::{AllocError, Global};

// Whether a byte is a digit of a literal of this kind.
fn is_literal_digit(kind: TokenKind, byte: u8) -> bool
    ensures { result ≡ is_literal_digit kind byte }
{
    match kind {
        TokenKind::Binary => byte == b'0' || byte == b'1',
        _ => byte.is_ascii_hexdigit(),
    }
}

// How many bytes of white space and comments stand before the digit that is next; none where no digit is.
fn next_digit(kind: TokenKind, bytes: &[u8]) -> Option<usize>
    requires { length bytes.now ≤ text_limit }
    ensures some { IfSome result (IsNextDigit kind bytes.now) }
    ensures none { IfNone result (HasNoDigit kind bytes.now) }
{
    if is_literal_digit(kind, byte_at(bytes, 0)) {
        return Some(0);
    }
    let n = blank_len(bytes);
    if !is_literal_digit(kind, byte_at(bytes, n)) {
        return None;
    }
    Some(n)
}

// Where the digits that stand in front end, and how many they are. White space and comments may stand before each of
// them.
pub(crate) fn spaced_digits(kind: TokenKind, bytes: &[u8]) -> (usize, usize)
    requires { length bytes.now ≤ text_limit }
    ensures { IsSpacedFront kind bytes.now result.0 result.1 }
{
    let mut end = 0;
    let mut count = 0;
    'digits: while let Some(skipped) = next_digit(kind, &bytes[end..]) {
        end += skipped + 1;
        count += 1;
    }
    (end, count)
}

// Whether the next byte of a literal is a digit outside comments. The flag says whether the bytes are inside a comment.
fn takes_digit(kind: TokenKind, in_comment: &mut bool, byte: u8) -> bool
    ensures { (rest : List ℕ) → digits_in kind in_comment.old (byte ∷ rest)
        ≡ (if result then byte ∷ digits_in kind in_comment.new rest else digits_in kind in_comment.new rest) }
{
    if *in_comment {
        *in_comment = byte != b'\n';
        return false;
    }
    *in_comment = byte == b'\'';
    !*in_comment && is_literal_digit(kind, byte)
}

/// The digits of a literal that has these bytes after its mark, or those after the word CRC, without the white space
/// and the comments between them. The only error is want of memory. The time is linear in the number of bytes.
pub fn literal_digits(alloc: Global, kind: TokenKind, own: &[u8]) -> Result<Vec<u8>, AllocError>
    ensures digits { IfOk result (λ digits. digits.items ≡ digits_in kind false own.now) }
    ensures each { IfOk result (λ digits. list_all (is_literal_digit kind) digits.items ≡ true) }
    ensures few { IfOk result (λ digits. length digits.items ≤ length own.now) }
{
    let mut digits = Vec::new(alloc);
    let mut in_comment = false;
    for byte in own {
        if takes_digit(kind, &mut in_comment, *byte) {
            digits.push(*byte)?;
        }
    }
    Ok(digits)
}
