//! Lists of bits, the lowest index first, and hexadecimal digits.
#![tactic(auto)]

ghost use Rattle.std.specs.Prelude.{◌≡◌, ◌<◌, ◌≤◌, ◌+◌, ◌-◌, ◌↔◌, ◌++◌, ℕ, Bool, false, [], IsTrue, IfOk, OnOk, All, length, replicate, reverse, take, drop, slice_get, slice_set};
ghost use Rattle.std.specs.Bool.{beq};
ghost use Rattle.std.specs.Cmp.Lexicographic.{pointwise};
ghost use Rattle.bit_list.specs.Digits.{IsDigit, IsFirstBadDigit, bits_of_binary, bits_of_hex};
ghost use Rattle.bit_list.specs.Integers.{int_of, bits_of_int};
ghost use Rattle.bit_list.specs.Ranges.{taken, spliced, AgreeUnderMask};
ghost use Rattle.base.specs.Bits.{low_bits, number_of};

mod digits;
mod hexadecimal;
pub mod laws;
mod words;

pub use hexadecimal::{hex_byte, word_digits};
use std::alloc::{AllocError, Global};
use std::marker::Model;
use thiserror::Error;
use words::WORD_SIZE;

/// The most bits of a list.
pub const MOST_BITS: u32 = 16_777_216;

/// The most digits that a list is read from.
pub const MOST_DIGITS: usize = 4_194_304;

/// A list of at most `MOST_BITS` bits, the lowest index first, which is the order of shifting.
#[derive(Drop)]
pub struct Bits {
    words: Vec<u64>,
    len: u32,
}

impl Model for Bits {
    ghost use Rattle.std.specs.Prelude.{Bool, List, take};
    ghost use Rattle.bit_list.specs.Words.{bits_of_words, IsPacked};

    ghost Value = { List Bool };

    ghost view = { λ b. take b.len (bits_of_words b.words.items) };

    ghost invariant = { λ b. IsPacked b.words.items b.len };
}

/// Why digits gave no list of bits: `BadDigit` with the place, counted from 0, of the first byte that is no digit, or
/// `Memory` where there was no memory for the list.
#[derive(Clone, Copy, Debug, PartialEq, Eq, Error)]
pub enum BitsRefused {
    #[error("the byte at {0} is no digit")]
    BadDigit(u32),
    #[error("out of memory")]
    Memory,
}

impl Bits {
    /// A list of n zeros.
    pub fn zeros(alloc: Global, n: u32) -> Result<Bits, AllocError>
        requires { n ≤ MOST_BITS }
        ensures { IfOk result (λ b. b ≡ replicate n false) }
    {
        let words = words::zeros(alloc, (n as usize).div_ceil(WORD_SIZE))?;
        Ok(Bits { words, len: n })
    }

    /// The list of these binary digits, highest digit first, so that the last digit stands at index 0.
    ///
    /// Each digit is one bit. `BadDigit` comes exactly where a byte is neither `0` nor `1`, with the place of the first
    /// such byte.
    pub fn from_binary(alloc: Global, digits: &[u8]) -> Result<Bits, BitsRefused>
        requires { length digits.now ≤ MOST_DIGITS }
        ensures bits { IfOk result (λ b. b ≡ bits_of_binary digits.now) }
        ensures all_digits { OnOk result (All (IsDigit 2) digits.now) }
        ensures bad_digit { (place : ℕ) →
            (result ≡ Err (BitsRefused.BadDigit place)) ↔ IsFirstBadDigit 2 digits.now place }
    {
        digits::read_bits(alloc, digits, 2, 1)
    }

    /// The list of these hexadecimal digits, highest digit first, so that the last digit stands at the indexes 0 to 3.
    ///
    /// Each digit is four bits; the letters A to F count in both cases. `BadDigit` comes exactly where a byte is no
    /// such digit, with the place of the first one.
    pub fn from_hex(alloc: Global, digits: &[u8]) -> Result<Bits, BitsRefused>
        requires { length digits.now ≤ MOST_DIGITS }
        ensures bits { IfOk result (λ b. b ≡ bits_of_hex digits.now) }
        ensures all_digits { OnOk result (All (IsDigit 16) digits.now) }
        ensures bad_digit { (place : ℕ) →
            (result ≡ Err (BitsRefused.BadDigit place)) ↔ IsFirstBadDigit 16 digits.now place }
    {
        digits::read_bits(alloc, digits, 16, 4)
    }

    /// A copy of the list.
    pub fn copied(&self, alloc: Global) -> Result<Bits, AllocError>
        ensures { IfOk result (λ b. b ≡ self.now) }
    {
        let words = self.words.as_slice().to_vec(alloc)?;
        let len = self.len;
        Ok(Bits { words, len })
    }

    /// How many bits the list has, at most `MOST_BITS`.
    pub fn len(&self) -> u32
        ensures length { result ≡ length self.now }
        ensures limit { result ≤ MOST_BITS }
    {
        self.len
    }

    /// Whether the list has no bit.
    pub fn is_empty(&self) -> bool
        ensures { IsTrue result ↔ (self.now ≡ []) }
    {
        self.len() == 0
    }

    /// The bit at index i.
    pub fn get(&self, i: u32) -> bool
        requires { i < length self.now }
        ensures { slice_get self.now i ≡ Some result }
    {
        words::bit_at(&self.words, i as usize)
    }

    /// Sets the bit at index i, and no other.
    pub fn set(&mut self, i: u32, bit: bool)
        requires { i < length self.old }
        ensures changed { self.new ≡ slice_set self.old i bit }
        ensures length { length self.new ≡ length self.old }
    {
        words::set_bit(&mut self.words, i as usize, bit);
    }

    /// Copies the n bits of `from` from index `low` on to the indexes from `at` on; the other bits stay.
    pub fn copy_range(&mut self, at: u32, from: &Bits, low: u32, n: u32)
        requires target { at + n ≤ length self.old }
        requires source { low + n ≤ length from.now }
        ensures copied { self.new ≡ spliced at (taken low n from.now) self.old }
        ensures length { length self.new ≡ length self.old }
    {
        words::copy_bits(
            &mut self.words,
            at as usize,
            &from.words,
            low as usize,
            n as usize,
        );
    }

    /// Copies the n bits of `from` from index `high` down to the indexes from `at` on: the bit at `at + i` becomes the
    /// bit of `from` at `high - i`. The other bits stay.
    pub fn reverse_range(&mut self, at: u32, from: &Bits, high: u32, n: u32)
        requires target { at + n ≤ length self.old }
        requires some { n ≤ high + 1 }
        requires source { 0 < n → high < length from.now }
        ensures reversed { self.new ≡ spliced at (reverse (taken (high + 1 - n) n from.now)) self.old }
        ensures length { length self.new ≡ length self.old }
    {
        if n > 0 {
            let low = high as usize + 1 - n as usize;
            words::reverse_bits(&mut self.words, at as usize, &from.words, low, n as usize);
        }
    }

    /// Puts the n bits from index `at` on in the other order; the other bits stay.
    pub fn reverse_within(&mut self, at: u32, n: u32)
        requires { at + n ≤ length self.old }
        ensures reversed { self.new ≡ spliced at (reverse (taken at n self.old)) self.old }
        ensures length { length self.new ≡ length self.old }
    {
        let _len = self.len();
        let (mut low, mut left) = (at, n);
        while left > 1 {
            let len = (left / 2).min(64);
            let high = low + left - len;
            let (first, last) = (self.reversed_word(low, len), self.reversed_word(high, len));
            self.set_word(low, len, last);
            self.set_word(high, len, first);
            low += len;
            left -= 2 * len;
        }
    }

    /// Copies the n bits from index `low` on to the indexes from `at` on; the other bits stay. All are read before one
    /// is written.
    pub fn copy_within(&mut self, at: u32, low: u32, n: u32)
        requires target { at + n ≤ length self.old }
        requires source { low + n ≤ length self.old }
        ensures copied { self.new ≡ spliced at (taken low n self.old) self.old }
        ensures length { length self.new ≡ length self.old }
    {
        let (at, low, n) = (at as usize, low as usize, n as usize);
        if at <= low {
            words::move_down(&mut self.words, at, low, n);
        } else {
            words::move_up(&mut self.words, at, low, n);
        }
    }

    /// Sets the n bits from index `at` on to the lowest ones of `from`, and to 0 where it has none; the other bits
    /// stay.
    pub fn copy_padded(&mut self, at: u32, from: &Bits, n: u32)
        requires target { at + n ≤ length self.old }
        ensures copied { self.new ≡ spliced at (take n (from.now ++ replicate n false)) self.old }
        ensures length { length self.new ≡ length self.old }
    {
        let _len = self.len();
        let count = from.len().min(n);
        self.copy_range(at, from, 0, count);
        self.fill_range(at + count, n - count, false);
    }

    /// Sets the n bits from index `at` on to the lowest ones of an integer in two's complement; the other bits stay.
    pub fn set_low_bits(&mut self, at: u32, value: i32, n: u32)
        requires width { n ≤ 32 }
        requires target { at + n ≤ length self.old }
        ensures bits { self.new ≡ spliced at (take n (bits_of_int value)) self.old }
        ensures length { length self.new ≡ length self.old }
    {
        self.set_word(at, n, u64::from(value.cast_unsigned()));
    }

    /// Whether the lowest n bits of two lists agree wherever the mask has a 1.
    pub fn masked_equal(&self, other: &Bits, mask: &Bits, n: u32) -> bool
        requires own { n ≤ length self.now }
        requires other { n ≤ length other.now }
        requires mask { n ≤ length mask.now }
        ensures { IsTrue result ↔ AgreeUnderMask mask.now n self.now other.now }
    {
        words::agree_under_mask(&mask.words, &self.words, &other.words, n as usize)
    }

    /// The n bits from index `low` on as an integer of 32 bits in two's complement: its bit i is the bit at `low + i`,
    /// and its bits from n on are 0.
    pub fn to_int(&self, low: u32, n: u32) -> i32
        requires width { n ≤ 32 }
        requires inside { low + n ≤ length self.now }
        ensures { result ≡ int_of (taken low n self.now) }
    {
        (self.word(low, n) as u32).cast_signed()
    }

    /// Sets the bits 0 to 31 to those of an integer in two's complement; the other bits stay.
    pub fn set_int(&mut self, value: i32)
        requires { 32 ≤ length self.old }
        ensures bits { self.new ≡ bits_of_int value ++ drop 32 self.old }
        ensures length { length self.new ≡ length self.old }
    {
        self.set_word(0, 32, u64::from(value.cast_unsigned()));
    }

    /// The n bits from index `at` on, of which there are at most 64, as a number.
    pub fn word(&self, at: u32, n: u32) -> u64
        requires most { n ≤ 64 }
        requires inside { at + n ≤ length self.now }
        ensures value { result ≡ number_of (taken at n self.now) }
        ensures bits { low_bits n result ≡ taken at n self.now }
    {
        words::word_at(&self.words, at as usize, n as usize)
    }

    /// The n bits from index `at` on, of which there are at most 64, as a number, the last one lowest.
    pub fn reversed_word(&self, at: u32, n: u32) -> u64
        requires most { n ≤ 64 }
        requires inside { at + n ≤ length self.now }
        ensures value { result ≡ number_of (reverse (taken at n self.now)) }
        ensures bits { low_bits n result ≡ reverse (taken at n self.now) }
    {
        if n == 0 {
            return 0;
        }
        words::reversed(self.word(at, n), n as usize)
    }

    /// Sets the n bits from index `at` on, of which there are at most 64, to the lowest ones of a number; the other
    /// bits stay.
    pub fn set_word(&mut self, at: u32, n: u32, word: u64)
        requires most { n ≤ 64 }
        requires inside { at + n ≤ length self.old }
        ensures bits { self.new ≡ spliced at (low_bits n word) self.old }
        ensures length { length self.new ≡ length self.old }
    {
        words::set_word(&mut self.words, at as usize, n as usize, word);
    }

    /// Sets the n bits from index `at` on to this bit; the other bits stay.
    pub fn fill_range(&mut self, at: u32, n: u32, bit: bool)
        requires { at + n ≤ length self.old }
        ensures bits { self.new ≡ spliced at (replicate n bit) self.old }
        ensures length { length self.new ≡ length self.old }
    {
        words::fill_bits(&mut self.words, at as usize, n as usize, bit);
    }
}

impl PartialEq for Bits {
    ghost use Rattle.std.specs.Cmp.{bool_eq_equiv, partial_equiv_from_equiv};
    ghost use Rattle.std.specs.Cmp.Lexicographic.{lists_equiv};

    ghost eq = { pointwise beq };

    ghost laws = { partial_equiv_from_equiv (lists_equiv bool_eq_equiv) };

    fn eq(&self, other: &Bits) -> bool
        ensures value { result ≡ pointwise beq self.now other.now }
        ensures same { IsTrue result ↔ (self.now ≡ other.now) }
    {
        self.len == other.len && words::are_same(&self.words, &other.words)
    }
}

impl Eq for Bits {
    ghost use Rattle.std.specs.Cmp.{bool_eq_equiv};
    ghost use Rattle.std.specs.Cmp.Lexicographic.{lists_equiv};

    ghost laws = { lists_equiv bool_eq_equiv };
}
