//! What single words of a line stand for.
ghost use Rattle.std.specs.Prelude.{◌≡◌, ◌≤◌, ◌<◌, ◌^◌, true, length, SomeIff};
ghost use Rattle.stapl_lexer.specs.Names.{is_name};
ghost use Rattle.board_text.specs.Lines.{texts};
ghost use Rattle.base.specs.Decimals.{is_decimal};
ghost use Rattle.board_text.specs.Shapes.{is_opcode_word, is_identity_word};
ghost use Rattle.board_text.specs.Contents.{word, name_at, number_at, code_at};
ghost use Rattle.board_text.specs.Reading.{cap};

use crate::digits::{decimal_value, hexadecimal_value};
use stapl_lexer::Name;

// The word at a place.
pub fn word<'a>(words: &[&'a [u8]], at: usize) -> &'a [u8]
    requires { at < length words.now }
    ensures { result.now ≡ word (texts words.now) at }
{
    words[at]
}

// The name at a place.
pub fn name_at(words: &[&[u8]], at: usize) -> Name
    requires { is_name (word (texts words.now) at) ≡ true }
    ensures { result ≡ name_at (texts words.now) at }
{
    Name::read(word(words, at)).unwrap()
}

// The decimal number at a place, where it is inside limits.
pub fn number_within(words: &[&[u8]], at: usize, low: u32, high: u32) -> Option<u32>
    requires spelled { is_decimal (word (texts words.now) at) ≡ true }
    requires limit { high < cap }
    ensures { SomeIff result ((low ≤ number_at (texts words.now) at) × (number_at (texts words.now) at ≤ high))
        (number_at (texts words.now) at) }
{
    let number = decimal_value(word(words, at));
    if low <= number && number <= high {
        Some(number)
    } else {
        None
    }
}

// The opcode at a place.
pub fn opcode_at(words: &[&[u8]], at: usize) -> u64
    requires { is_opcode_word (word (texts words.now) at) ≡ true }
    ensures { result ≡ code_at (texts words.now) at }
{
    hexadecimal_value(word(words, at))
}

// The identity at a place.
pub fn identity_at(words: &[&[u8]], at: usize) -> u32
    requires { is_identity_word (word (texts words.now) at) ≡ true }
    ensures { result ≡ code_at (texts words.now) at }
{
    hexadecimal_value(word(words, at)) as u32
}
