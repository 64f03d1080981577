//! Numbers in words.
ghost use Rattle.std.specs.Prelude.{◌≡◌, ◌≤◌, ◌<◌, ◌^◌, true, length, min};
ghost use Rattle.std.specs.Char.{is_ascii_digit, is_ascii_hexdigit, digit_value};
ghost use Rattle.std.specs.List.{list_all};
ghost use Rattle.std.specs.Str.Parse.{digits_value};
ghost use Rattle.board_text.specs.Shapes.{are_hexadecimal, is_opcode_word, is_identity_word, is_constant_word};
ghost use Rattle.board_text.specs.Reading.{cap};

// What stands for each number that is greater.
const CAP: u32 = 1_000_001;

fn are_hexadecimal(word: &[u8]) -> bool
    ensures { result ≡ are_hexadecimal word.now }
{
    word.iter().all(|byte| byte.is_ascii_hexdigit())
}

// Whether a word is spelled as an opcode.
pub fn is_opcode_word(word: &[u8]) -> bool
    ensures { result ≡ is_opcode_word word.now }
{
    1 <= word.len() && word.len() <= 16 && are_hexadecimal(word)
}

// Whether a word is spelled as an identity.
pub fn is_identity_word(word: &[u8]) -> bool
    ensures { result ≡ is_identity_word word.now }
{
    word.len() == 8 && are_hexadecimal(word)
}

// Whether a word is spelled as a constant.
pub fn is_constant_word(word: &[u8]) -> bool
    ensures { result ≡ is_constant_word word.now }
{
    1 <= word.len() && are_hexadecimal(word)
}

// The value of decimal digits, or the cap where it is greater.
pub fn decimal_value(digits: &[u8]) -> u32
    requires { list_all is_ascii_digit digits.now ≡ true }
    ensures { result ≡ min (digits_value 10 digits.now) cap }
{
    let mut value = 0;
    for digit in digits {
        value = (value * 10 + u32::from(*digit - b'0')).min(CAP);
    }
    value
}

// The value of a hexadecimal digit.
pub fn hexadecimal_digit(digit: u8) -> u64
    requires { is_ascii_hexdigit digit ≡ true }
    ensures value { result ≡ digit_value digit }
    ensures bound { result < 16 }
{
    match digit {
        b'0'..=b'9' => u64::from(digit - b'0'),
        b'A'..=b'F' => u64::from(digit - b'A') + 10,
        _ => u64::from(digit - b'a') + 10,
    }
}

// The value of at most 16 hexadecimal digits.
pub fn hexadecimal_value(digits: &[u8]) -> u64
    requires digits { are_hexadecimal digits.now ≡ true }
    requires short { length digits.now ≤ 16 }
    ensures value { result ≡ digits_value 16 digits.now }
    ensures bound { result < 16 ^ length digits.now }
{
    let mut value = 0;
    for digit in digits {
        value = value * 16 + hexadecimal_digit(*digit);
    }
    value
}
