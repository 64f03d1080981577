//! Lists of bits from digits.
ghost use Rattle.std.specs.Prelude.{◌≡◌, ◌≤◌, ◌*◌, ◌^◌, ◌↔◌, ℕ, All, IfOk, OnOk, MatchOption, length};
ghost use Rattle.base.specs.Bits.{number_of};
ghost use Rattle.bit_list.specs.Digits.{IsDigit, IsFirstBadDigit, bits_of_digits};

use crate::{Bits, BitsRefused, MOST_DIGITS};
use std::alloc::Global;

/// The list of these digits, of which each has `width` bits.
pub fn read_bits(alloc: Global, digits: &[u8], base: u32, width: usize) -> Result<Bits, BitsRefused>
    requires low { 2 ≤ base }
    requires high { base ≤ 36 }
    requires some { 1 ≤ width }
    requires width { width ≤ 4 }
    requires fits { base ≤ 2 ^ width }
    requires room { length digits.now ≤ MOST_DIGITS }
    ensures bits { IfOk result (λ b. b ≡ bits_of_digits width digits.now) }
    ensures all_digits { OnOk result (All (IsDigit base) digits.now) }
    ensures bad_digit { (place : ℕ) →
        (result ≡ Err (BitsRefused.BadDigit place)) ↔ IsFirstBadDigit base digits.now place }
{
    if let Some(place) = first_bad_digit(digits, base) {
        return Err(BitsRefused::BadDigit(place));
    }
    let Ok(mut bits) = Bits::zeros(alloc, (digits.len() * width) as u32) else {
        return Err(BitsRefused::Memory);
    };
    write_digits(&mut bits, digits, base, width);
    Ok(bits)
}

/// The place of the first byte that is no digit of this base.
fn first_bad_digit(digits: &[u8], base: u32) -> Option<u32>
    requires low { 2 ≤ base }
    requires high { base ≤ 36 }
    requires room { length digits.now ≤ MOST_DIGITS }
    ensures { MatchOption result (All (IsDigit base) digits.now) (IsFirstBadDigit base digits.now) }
{
    for place in 0..digits.len() {
        if !char::from(digits[place]).is_digit(base) {
            return Some(place as u32);
        }
    }
    None
}

/// Sets the bits to those of the digits.
fn write_digits(bits: &mut Bits, digits: &[u8], base: u32, width: usize)
    requires room { length bits.old ≡ length digits.now * width }
    requires some { 1 ≤ width }
    requires width { width ≤ 4 }
    requires most { length digits.now ≤ MOST_DIGITS }
    requires low { 2 ≤ base }
    requires high { base ≤ 36 }
    requires fits { base ≤ 2 ^ width }
    requires all_digits { All (IsDigit base) digits.now }
    ensures { bits.new ≡ bits_of_digits width digits.now }
{
    let mut done = 0;
    while done < digits.len() {
        let count = (digits.len() - done).min(DIGITS_OF_WORD);
        let low = digits.len() - done - count;
        let word = word_of_digits(&digits[low..low + count], base, width);
        bits.set_word((done * width) as u32, (count * width) as u32, word);
        done += count;
    }
}

/// How many digits are gathered in a word.
const DIGITS_OF_WORD: usize = 16;

/// The number with the bits of these digits.
fn word_of_digits(digits: &[u8], base: u32, width: usize) -> u64
    requires few { length digits.now ≤ 16 }
    requires width { width ≤ 4 }
    requires low { 2 ≤ base }
    requires high { base ≤ 36 }
    requires fits { base ≤ 2 ^ width }
    requires all_digits { All (IsDigit base) digits.now }
    ensures { result ≡ number_of (bits_of_digits width digits.now) }
{
    let mut word = 0;
    for i in 0..digits.len() {
        let value = char::from(digits[i]).to_digit(base).unwrap();
        word = (word << width) + u64::from(value);
    }
    word
}
