//! Hexadecimal digits, in upper case.
ghost use Rattle.std.specs.Prelude.{◌≡◌, ◌<◌, ◌-◌, ◌/◌, ◌%◌, ◌^◌, ℕ, slice_index};
ghost use Rattle.bit_list.specs.Hexadecimal.{hex_digit};

/// The upper-case hexadecimal digit of a number below 16, as a byte.
pub fn hex_byte(digit: u8) -> u8
    requires { digit < 16 }
    ensures { result ≡ hex_digit digit }
{
    if digit < 10 { 48 + digit } else { 55 + digit }
}

/// The sixteen hexadecimal digits of a word of 64 bits, as bytes, the highest digit first: digit k, counted from 0, is
/// the one that counts 16 ^ (15 - k). It takes no memory.
pub fn word_digits(word: u64) -> [u8; 16]
    ensures { (k : ℕ) → k < 16 → slice_index result k ≡ hex_digit (word / 16 ^ (15 - k) % 16) }
{
    let mut digits = [0u8; 16];
    for k in 0..16usize {
        digits[k] = hex_byte(((word >> (60 - 4 * k)) % 16) as u8);
    }
    digits
}
