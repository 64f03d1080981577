//! Runs of bytes of one kind in front of some bytes.
ghost use Rattle.std.specs.Prelude.{◌≡◌, ℕ, ◌≤◌, ◌↔◌, List, Bool, length, slice_index};
ghost use Rattle.std.specs.Char.{is_ascii_digit};
ghost use Rattle.std.specs.Str.{str_eq_ignore_ascii_case};
ghost use Rattle.stapl_lexer.specs.Names.{is_name_byte};
ghost use Rattle.stapl_lexer.specs.ReservedWords.{spells_word};
ghost use Rattle.stapl_lexer.specs.TokenReading.{IsBlankFront, IsRun};
ghost use Rattle.stapl_lexer.specs.Pieces.{text_limit};

use crate::cutting::is_blank_start;
use crate::name::is_name_byte;
use crate::segment_len;

// The byte at a place, or 0 where the bytes end before.
pub(crate) fn byte_at(bytes: &[u8], at: usize) -> u8
    ensures { result ≡ slice_index bytes.now at }
{
    bytes.get(at).copied().unwrap_or(0)
}

// Whether the bytes spell a word, letter case ignored.
pub(crate) fn spells_word(word: &str, bytes: &[u8]) -> bool
    ensures { result ≡ spells_word word.now bytes.now }
{
    bytes.eq_ignore_ascii_case(word.as_bytes())
}

// How many bytes of white space and comments stand in front.
pub(crate) fn blank_len(bytes: &[u8]) -> usize
    requires { length bytes.now ≤ text_limit }
    ensures within { result ≤ length bytes.now }
    ensures blank { IsBlankFront bytes.now result }
{
    let mut at = 0;
    'blanks: while at < bytes.len() && is_blank_start(bytes[at]) {
        at += segment_len(&bytes[at..]);
    }
    at
}

// How many bytes in front may stand in a name.
pub(crate) fn name_len(bytes: &[u8]) -> usize
    ensures { IsRun is_name_byte bytes.now result }
{
    for (i, byte) in bytes.iter().enumerate() {
        if !is_name_byte(*byte) {
            return i;
        }
    }
    bytes.len()
}

// How many decimal digits stand in front.
pub(crate) fn digits_len(bytes: &[u8]) -> usize
    ensures { IsRun is_ascii_digit bytes.now result }
{
    for (i, byte) in bytes.iter().enumerate() {
        if !byte.is_ascii_digit() {
            return i;
        }
    }
    bytes.len()
}
