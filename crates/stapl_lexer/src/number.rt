//! Numbers.
ghost use Rattle.std.specs.Prelude.{◌≡◌, ℕ, ◌≤◌, ◌*◌, ◌^◌, true, min, slice_index, length};
ghost use Rattle.std.specs.Char.{is_ascii_digit};
ghost use Rattle.std.specs.List.{list_all};
ghost use Rattle.std.specs.Str.Parse.{digits_value};
ghost use Rattle.stapl_lexer.specs.PieceTokens.{begins_exponent};
ghost use Rattle.stapl_lexer.specs.TokenReading.{cap, IsNumberFront};
ghost use Rattle.stapl_lexer.specs.Pieces.{text_limit};

use crate::run::{byte_at, digits_len};

// The greatest number.
pub(crate) const GREATEST: u32 = 1 << 31;

// What stands for each number that is greater.
const CAP: u64 = 2_147_483_649;

// Whether the bytes begin with `E` and a decimal digit.
fn begins_exponent(bytes: &[u8]) -> bool
    ensures { result ≡ begins_exponent bytes.now }
{
    matches!(byte_at(bytes, 0), b'E' | b'e') && byte_at(bytes, 1).is_ascii_digit()
}

/// The value of decimal digits, or the limit if it is greater. The time is linear in the number of digits.
pub fn capped_digits(digits: &[u8], limit: u64) -> u64
    requires digits { list_all is_ascii_digit digits.now ≡ true }
    requires small { limit ≤ 2 ^ 60 }
    ensures { result ≡ min (digits_value 10 digits.now) limit }
{
    let mut value = 0;
    for digit in digits {
        value = (value * 10 + u64::from(*digit - b'0')).min(limit);
    }
    value
}

// A value times ten, so many times, or the cap where it is greater.
fn scaled(value: u64, power: u64) -> u64
    requires { value ≤ cap }
    ensures { result ≡ min (value * 10 ^ min power 10) cap }
{
    let mut scaled = value;
    for _turn in 0..power.min(10) {
        scaled = (scaled * 10).min(CAP);
    }
    scaled
}

// How many bytes the number that stands in front has, and its value, or the cap where it is greater.
pub(crate) fn number_in_front(bytes: &[u8]) -> (usize, u64)
    requires digit { is_ascii_digit (slice_index bytes.now 0) ≡ true }
    requires small { length bytes.now ≤ text_limit }
    ensures { IsNumberFront bytes.now result.0 result.1 }
{
    let n = digits_len(bytes);
    let value = capped_digits(&bytes[..n], CAP);
    if !begins_exponent(&bytes[n..]) {
        return (n, value);
    }
    let after = &bytes[n + 1..];
    let m = digits_len(after);
    let power = capped_digits(&after[..m], CAP);
    (n + 1 + m, scaled(value, power))
}
