//! The token that stands in front of some bytes.
ghost use Rattle.std.specs.Prelude.{◌≡◌, ℕ, ◌≤◌, ◌<◌, ◌∷◌, [], ◌&&◌, ◌==◌, ◌-◌, codes, nat_le, true, false, length, slice_index, take, Option};
ghost use Rattle.std.specs.Char.{is_ascii_alphabetic, is_ascii_digit};
ghost use Rattle.std.specs.List.{list_any};
ghost use Rattle.stapl_lexer.specs.declared.token.TokenKind.TheVariants as kinds;
ghost use Rattle.stapl_lexer.specs.PieceTokens.{AreBlanks, kind_of, kind_at};
ghost use Rattle.stapl_lexer.specs.Marks.{is_mark_spelling};
ghost use Rattle.stapl_lexer.specs.ReservedWords.{spells_word};
ghost use Rattle.stapl_lexer.specs.TokenReading.{IsFront};
ghost use Rattle.stapl_lexer.specs.Pieces.{text_limit};

use crate::literal::spaced_digits;
use crate::name::is_name_byte;
use crate::number::number_in_front;
use crate::run::{blank_len, byte_at, name_len, spells_word};
use crate::spelling::mark_terminal;
use crate::{TokenKind, segment_len};

// A token in front of some bytes.
#[derive(Clone, Copy)]
pub(crate) struct Front {
    // Whether it is good.
    pub(crate) good: bool,
    // How many bytes it has.
    pub(crate) len: usize,
    // The value of a number, or one above the greatest number where it is greater; 0 for each other token.
    pub(crate) value: u32,
}

// The kind of the token that begins with this byte.
fn kind_of(byte: u8) -> TokenKind
    ensures { result ≡ kind_of byte }
{
    if byte.is_ascii_alphabetic() {
        return TokenKind::Word;
    }
    if byte.is_ascii_digit() {
        return TokenKind::Number;
    }
    match byte {
        b'"' => TokenKind::Text,
        b'#' => TokenKind::Binary,
        b'$' => TokenKind::Hexadecimal,
        _ => TokenKind::Mark,
    }
}

// The kind of the token that begins with this byte, where `is_crc` says whether the first word of the piece is CRC, if
// there has been one.
pub(crate) fn kind_at(is_crc: Option<bool>, byte: u8) -> TokenKind
    ensures { result ≡ kind_at is_crc byte }
{
    match is_crc {
        Some(true) => TokenKind::Hex4,
        _ => kind_of(byte),
    }
}

// Whether the first n bytes are CHR, and a `$` follows.
fn has_dollar(bytes: &[u8], n: usize) -> bool
    requires { n ≤ length bytes.now }
    ensures { result ≡ (spells_word (codes "CHR") (take n bytes.now) && slice_index bytes.now n == 36) }
{
    spells_word("CHR", &bytes[..n]) && byte_at(bytes, n) == b'$'
}

fn word_front(bytes: &[u8]) -> Front
    requires letter { is_ascii_alphabetic (slice_index bytes.now 0) ≡ true }
    requires small { length bytes.now ≤ text_limit }
    ensures { IsFront kinds.Word bytes.now result }
{
    let n = name_len(bytes);
    Front {
        good: true,
        len: if has_dollar(bytes, n) { n + 1 } else { n },
        value: 0,
    }
}

fn number_front(bytes: &[u8]) -> Front
    requires digit { is_ascii_digit (slice_index bytes.now 0) ≡ true }
    requires small { length bytes.now ≤ text_limit }
    ensures { IsFront kinds.Number bytes.now result }
{
    let (len, value) = number_in_front(bytes);
    Front {
        good: !is_name_byte(byte_at(bytes, len)),
        len,
        value: value as u32,
    }
}

// Whether the first n bytes end in a quote that is not their first byte.
pub(crate) fn ends_in_quote(bytes: &[u8], n: usize) -> bool
    ensures { result ≡ (nat_le 2 n && slice_index bytes.now (n - 1) == 34) }
{
    n >= 2 && byte_at(bytes, n - 1) == b'"'
}

fn text_front(bytes: &[u8]) -> Front
    requires quote { slice_index bytes.now 0 ≡ 34 }
    requires some { 0 < length bytes.now }
    requires small { length bytes.now ≤ text_limit }
    ensures { IsFront kinds.Text bytes.now result }
{
    let len = segment_len(bytes);
    Front {
        good: ends_in_quote(bytes, len),
        len,
        value: 0,
    }
}

fn binary_front(bytes: &[u8]) -> Front
    requires some { 0 < length bytes.now }
    requires small { length bytes.now ≤ text_limit }
    ensures { IsFront kinds.Binary bytes.now result }
{
    let (end, count) = spaced_digits(TokenKind::Binary, &bytes[1..]);
    Front {
        good: count >= 1,
        len: 1 + end,
        value: 0,
    }
}

fn hexadecimal_front(bytes: &[u8]) -> Front
    requires some { 0 < length bytes.now }
    requires small { length bytes.now ≤ text_limit }
    ensures { IsFront kinds.Hexadecimal bytes.now result }
{
    let (end, count) = spaced_digits(TokenKind::Hexadecimal, &bytes[1..]);
    Front {
        good: count >= 1,
        len: 1 + end,
        value: 0,
    }
}

// Whether a mark of two bytes may end with this byte.
fn ends_double_mark(byte: u8) -> bool
    ensures { result ≡ list_any (λ mark. mark == byte) (codes "<>=&|.") }
{
    matches!(byte, b'<' | b'>' | b'=' | b'&' | b'|' | b'.')
}

// Whether two bytes are a mark. A byte 0 is in none.
#[tactic(auto, using(crate::proofs::SpellingLemmas::no_double_mark))]
fn is_double_mark(first: u8, second: u8) -> bool
    ensures { result ≡ is_mark_spelling (first ∷ second ∷ []) }
{
    ends_double_mark(second) && mark_terminal(&[first, second]).is_some()
}

fn is_single_mark(byte: u8) -> bool
    ensures { result ≡ is_mark_spelling (byte ∷ []) }
{
    mark_terminal(&[byte]).is_some()
}

#[tactic(auto, using(crate::proofs::FrontLemmas::double_mark))]
fn mark_front(bytes: &[u8]) -> Front
    requires { 0 < length bytes.now }
    ensures { IsFront kinds.Mark bytes.now result }
{
    let first = bytes[0];
    if is_double_mark(first, byte_at(bytes, 1)) {
        return Front {
            good: true,
            len: 2,
            value: 0,
        };
    }
    Front {
        good: is_single_mark(first),
        len: 1,
        value: 0,
    }
}

// Whether four digits are all that stands there: how many digits were read, and what stands after them.
fn are_four_digits(count: usize, after: &[u8]) -> bool
    requires { length after.now ≤ text_limit }
    ensures yes { result ≡ true → (count ≡ 4) × AreBlanks after.now [] }
    ensures no { result ≡ false → count ≡ 4 → AreBlanks after.now [] → ⊥ }
{
    count == 4 && blank_len(after) == after.len()
}

// What stands after the word CRC.
fn check_front(bytes: &[u8]) -> Front
    requires some { 0 < length bytes.now }
    requires small { length bytes.now ≤ text_limit }
    ensures { IsFront kinds.Hex4 bytes.now result }
{
    let (end, count) = spaced_digits(TokenKind::Hex4, bytes);
    if !are_four_digits(count, &bytes[end..]) {
        return Front {
            good: false,
            len: bytes.len(),
            value: 0,
        };
    }
    Front {
        good: true,
        len: end,
        value: 0,
    }
}

// The token of this kind in front.
pub(crate) fn front_of(kind: TokenKind, is_crc: Option<bool>, bytes: &[u8]) -> Front
    requires kind { kind ≡ kind_at is_crc (slice_index bytes.now 0) }
    requires some { 0 < length bytes.now }
    requires small { length bytes.now ≤ text_limit }
    ensures { IsFront kind bytes.now result }
{
    match kind {
        TokenKind::Word => word_front(bytes),
        TokenKind::Number => number_front(bytes),
        TokenKind::Text => text_front(bytes),
        TokenKind::Binary => binary_front(bytes),
        TokenKind::Hexadecimal => hexadecimal_front(bytes),
        TokenKind::Mark => mark_front(bytes),
        TokenKind::Hex4 => check_front(bytes),
    }
}
