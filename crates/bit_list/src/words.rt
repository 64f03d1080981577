//! Bits in words of 64, the lowest bit of the first word first.
ghost use Rattle.std.specs.Prelude.{◌≡◌, ◌<◌, ◌≤◌, ◌+◌, ◌-◌, ◌*◌, ◌/◌, ◌%◌, ◌^◌, ◌↔◌, ℕ, IsTrue, IfOk, length, replicate, reverse, slice_get, slice_index, slice_set};
ghost use Rattle.base.specs.Bits.{low_bits, number_of};
ghost use Rattle.bit_list.specs.Ranges.{taken, spliced, AgreeUnderMask};
ghost use Rattle.bit_list.specs.Words.{word_size, bits_of_words};

use bit_lanes::{copy_words, masked_equal};
use std::alloc::{AllocError, Global};

/// How many bits a word has.
pub const WORD_SIZE: usize = 64;

/// Each number of four bits with its bits in the other order.
const TURNED_DIGITS: [u64; 16] = [0, 8, 4, 12, 2, 10, 6, 14, 1, 9, 5, 13, 3, 11, 7, 15];

/// So many words that are 0.
pub fn zeros(alloc: Global, count: usize) -> Result<Vec<u64>, AllocError>
    ensures { IfOk result (λ words. words.items ≡ replicate count 0) }
{
    vec![in alloc; 0; count]
}

/// The bit at index i.
#[inline]
pub fn bit_at(words: &[u64], i: usize) -> bool
    requires { i < 64 * length words.now }
    ensures { slice_get (bits_of_words words.now) i ≡ Some result }
{
    (words[i / WORD_SIZE] >> (i % WORD_SIZE)) & 1 == 1
}

/// Sets the bit at index i, and no other.
#[inline]
pub fn set_bit(words: &mut [u64], i: usize, bit: bool)
    requires { i < 64 * length words.old }
    ensures { bits_of_words words.new ≡ slice_set (bits_of_words words.old) i bit }
{
    let word = words[i / WORD_SIZE];
    words[i / WORD_SIZE] = with_bit(word, i % WORD_SIZE, bit);
}

/// A word with another bit at this place.
#[inline(always)]
fn with_bit(word: u64, place: usize, bit: bool) -> u64
    requires { place < 64 }
    ensures { low_bits word_size result ≡ slice_set (low_bits word_size word) place bit }
{
    let one = 1 << place;
    if bit { word | one } else { word & !one }
}

/// The n bits from index `at` on, of which there are at most 64, as a number.
#[inline]
pub fn word_at(words: &[u64], at: usize, n: usize) -> u64
    requires most { n ≤ 64 }
    requires inside { at + n ≤ 64 * length words.now }
    ensures value { result ≡ number_of (taken at n (bits_of_words words.now)) }
    ensures bits { low_bits n result ≡ taken at n (bits_of_words words.now) }
{
    let part = pair_at(words, at / WORD_SIZE) >> (at % WORD_SIZE);
    low_half(part) & ones(n)
}

/// Sets the n bits from index `at` on, of which there are at most 64, to the lowest ones of a number; the others stay.
#[inline]
pub fn set_word(words: &mut [u64], at: usize, n: usize, word: u64)
    requires most { n ≤ 64 }
    requires inside { at + n ≤ 64 * length words.old }
    ensures { bits_of_words words.new ≡ spliced at (low_bits n word) (bits_of_words words.old) }
{
    let (i, low) = (at / WORD_SIZE, at % WORD_SIZE);
    if n == WORD_SIZE && low == 0 {
        words[i] = word;
        return;
    }
    if low + n <= WORD_SIZE {
        let new = replaced_in_word(word_or_zero(words, i), low, n, word);
        set_if_inside(words, i, new);
        return;
    }
    let new = replaced(pair_at(words, i), low, n, word);
    set_if_inside(words, i, low_half(new));
    set_if_inside(words, i + 1, (new >> WORD_SIZE) as u64);
}

/// A word with the lowest n bits of another one in place of its n bits from bit `low` on.
#[inline(always)]
fn replaced_in_word(old: u64, low: usize, n: usize, word: u64) -> u64
    requires some { n < 64 }
    requires inside { low + n ≤ 64 }
    requires low { low < 64 }
    ensures { result ≡ (old / 2 ^ (low + n) * 2 ^ n + word % 2 ^ n) * 2 ^ low + old % 2 ^ low }
{
    let above = old >> low >> n << n;
    ((above + (word & ones(n))) << low) + (old & ones(low))
}

/// A number with the lowest n bits of another one in place of its n bits from bit `low` on.
#[inline(always)]
fn replaced(old: u128, low: usize, n: usize, word: u64) -> u128
    requires low { low < 64 }
    requires most { n ≤ 64 }
    ensures { result ≡ (old / 2 ^ (low + n) * 2 ^ n + word % 2 ^ n) * 2 ^ low + old % 2 ^ low }
{
    let above = old >> (low + n) << n;
    let below = low_half(old) & ones(low);
    ((above + u128::from(word & ones(n))) << low) + u128::from(below)
}

/// A word and the next one above it, as one number; words past the end are 0.
#[inline(always)]
fn pair_at(words: &[u64], i: usize) -> u128
    requires { i < 2 ^ 62 }
    ensures value { result ≡ slice_index words.now (i + 1) * 2 ^ 64 + slice_index words.now i }
    ensures low { slice_index words.now i < 2 ^ 64 }
{
    (u128::from(word_or_zero(words, i + 1)) << WORD_SIZE) + u128::from(word_or_zero(words, i))
}

/// The word at this place, and 0 past the end.
#[inline(always)]
fn word_or_zero(words: &[u64], i: usize) -> u64
    ensures { result ≡ slice_index words.now i }
{
    if i < words.len() { words[i] } else { 0 }
}

/// Sets the word at this place, if it is not past the end.
#[inline(always)]
fn set_if_inside(words: &mut [u64], i: usize, word: u64)
    ensures { words.new ≡ slice_set words.old i word }
{
    if i < words.len() {
        words[i] = word;
    }
}

/// The lowest 64 bits of a number.
#[inline(always)]
fn low_half(number: u128) -> u64
    ensures { result ≡ number % 2 ^ 64 }
{
    (number & 0xffff_ffff_ffff_ffff) as u64
}

/// The number with n ones, of which there are at most 64.
#[inline(always)]
fn ones(n: usize) -> u64
    requires { n ≤ 64 }
    ensures { result ≡ 2 ^ n - 1 }
{
    if n < WORD_SIZE {
        (1 << n) - 1
    } else {
        u64::MAX
    }
}

/// Copies the n bits of `from` from index `low` on to the indexes from `at` on; the other bits stay.
pub fn copy_bits(to: &mut [u64], at: usize, from: &[u64], low: usize, n: usize)
    requires target { at + n ≤ 64 * length to.old }
    requires source { low + n ≤ 64 * length from.now }
    requires target_size { 64 * length to.old < 2 ^ 64 }
    requires source_size { 64 * length from.now < 2 ^ 64 }
    ensures { bits_of_words to.new ≡ spliced at (taken low n (bits_of_words from.now)) (bits_of_words to.old) }
{
    if n <= WORD_SIZE {
        copy_part(to, at, from, low, n);
        return;
    }
    let head = bits_to_end_of_word(at);
    copy_part(to, at, from, low, head);
    let whole = (n - head) / WORD_SIZE;
    copy_middle(to, at + head, from, low + head, whole);
    let done = head + WORD_SIZE * whole;
    copy_part(to, at + done, from, low + done, n - done);
}

/// How many bits stand from index `at` on to the end of their word, at least 1.
#[inline(always)]
fn bits_to_end_of_word(at: usize) -> usize
    ensures some { 0 < result }
    ensures few { result ≤ 64 }
    ensures aligned { (at + result) % 64 ≡ 0 }
{
    WORD_SIZE - at % WORD_SIZE
}

/// Copies as many bits as so many words have to where a word begins.
#[inline]
fn copy_middle(to: &mut [u64], at: usize, from: &[u64], low: usize, whole: usize)
    requires aligned { at % 64 ≡ 0 }
    requires target { at + 64 * whole ≤ 64 * length to.old }
    requires source { low + 64 * whole ≤ 64 * length from.now }
    requires source_size { 64 * length from.now < 2 ^ 64 }
    ensures { bits_of_words to.new
        ≡ spliced at (taken low (64 * whole) (bits_of_words from.now)) (bits_of_words to.old) }
{
    let first = at / WORD_SIZE;
    copy_whole(&mut to[first..first + whole], from, low);
}

/// Copies at most 64 bits.
#[inline]
fn copy_part(to: &mut [u64], at: usize, from: &[u64], low: usize, n: usize)
    requires most { n ≤ 64 }
    requires target { at + n ≤ 64 * length to.old }
    requires source { low + n ≤ 64 * length from.now }
    ensures { bits_of_words to.new ≡ spliced at (taken low n (bits_of_words from.now)) (bits_of_words to.old) }
{
    set_word(to, at, n, word_at(from, low, n));
}

/// Sets all words to the bits of `from` from index `low` on.
fn copy_whole(to: &mut [u64], from: &[u64], low: usize)
    requires source { low + 64 * length to.old ≤ 64 * length from.now }
    requires source_size { 64 * length from.now < 2 ^ 64 }
    ensures { bits_of_words to.new ≡ taken low (64 * length to.old) (bits_of_words from.now) }
{
    if low % WORD_SIZE == 0 {
        let first = low / WORD_SIZE;
        copy_words(&from[first..first + to.len()], to);
    } else {
        copy_shifted(to, from, low);
    }
}

/// Sets all words to the bits of `from` from index `low` on, each from two words.
fn copy_shifted(to: &mut [u64], from: &[u64], low: usize)
    requires source { low + 64 * length to.old ≤ 64 * length from.now }
    requires source_size { 64 * length from.now < 2 ^ 64 }
    ensures { bits_of_words to.new ≡ taken low (64 * length to.old) (bits_of_words from.now) }
{
    for i in 0..to.len() {
        to[i] = word_at(from, low + WORD_SIZE * i, WORD_SIZE);
    }
}

/// Copies the n bits from index `low` on to the indexes from `at` on, which begin no higher; the other bits stay.
pub fn move_down(words: &mut [u64], at: usize, low: usize, n: usize)
    requires down { at ≤ low }
    requires source { low + n ≤ 64 * length words.old }
    requires size { 64 * length words.old < 2 ^ 64 }
    ensures { bits_of_words words.new ≡ spliced at (taken low n (bits_of_words words.old)) (bits_of_words words.old) }
{
    let mut done = 0;
    while done < n {
        let len = (n - done).min(bits_to_end_of_word(at + done));
        let word = word_at(words, low + done, len);
        set_word(words, at + done, len, word);
        done += len;
    }
}

/// Copies the n bits from index `low` on to the indexes from `at` on, which begin no lower; the other bits stay.
pub fn move_up(words: &mut [u64], at: usize, low: usize, n: usize)
    requires up { low ≤ at }
    requires target { at + n ≤ 64 * length words.old }
    requires size { 64 * length words.old < 2 ^ 64 }
    ensures { bits_of_words words.new ≡ spliced at (taken low n (bits_of_words words.old)) (bits_of_words words.old) }
{
    let mut left = n;
    while left > 0 {
        let len = left.min((at + left - 1) % WORD_SIZE + 1);
        left -= len;
        let word = word_at(words, low + left, len);
        set_word(words, at + left, len, word);
    }
}

/// Sets the n bits from index `at` on to this bit; the other bits stay.
pub fn fill_bits(words: &mut [u64], at: usize, n: usize, bit: bool)
    requires target { at + n ≤ 64 * length words.old }
    requires size { 64 * length words.old < 2 ^ 64 }
    ensures { bits_of_words words.new ≡ spliced at (replicate n bit) (bits_of_words words.old) }
{
    let word = word_of(bit);
    let mut done = 0;
    while done < n {
        let len = (n - done).min(bits_to_end_of_word(at + done));
        set_word(words, at + done, len, word);
        done += len;
    }
}

/// The word that has this bit at each place.
fn word_of(bit: bool) -> u64
    ensures { (n : ℕ) → n ≤ 64 → low_bits n result ≡ replicate n bit }
{
    if bit { u64::MAX } else { 0 }
}

/// Whether the lowest n bits of two lists of words agree wherever the mask has a 1.
pub fn agree_under_mask(mask: &[u64], words: &[u64], other: &[u64], n: usize) -> bool
    requires mask { n ≤ 64 * length mask.now }
    requires own { n ≤ 64 * length words.now }
    requires other { n ≤ 64 * length other.now }
    ensures { IsTrue result
        ↔ AgreeUnderMask (bits_of_words mask.now) n (bits_of_words words.now) (bits_of_words other.now) }
{
    let whole = n / WORD_SIZE;
    masked_equal(&words[..whole], &other[..whole], &mask[..whole])
        && part_agrees(mask, words, other, WORD_SIZE * whole, n % WORD_SIZE)
}

/// Whether the n bits from index `at` on, of which there are at most 64, agree wherever the mask has a 1.
fn part_agrees(mask: &[u64], words: &[u64], other: &[u64], at: usize, n: usize) -> bool
    requires most { n ≤ 64 }
    requires mask { at + n ≤ 64 * length mask.now }
    requires own { at + n ≤ 64 * length words.now }
    requires other { at + n ≤ 64 * length other.now }
    ensures { IsTrue result ↔ AgreeUnderMask (taken at n (bits_of_words mask.now)) n
        (taken at n (bits_of_words words.now)) (taken at n (bits_of_words other.now)) }
{
    let bits = [word_at(words, at, n)];
    let others = [word_at(other, at, n)];
    masked_equal(&bits, &others, &[word_at(mask, at, n)])
}

/// Whether two lists of words have the same bits.
pub fn are_same(words: &[u64], others: &[u64]) -> bool
    ensures { IsTrue result ↔ (bits_of_words words.now ≡ bits_of_words others.now) }
{
    *words == *others
}

/// Copies the n bits of `from` from index `low` on, the last one first, to the indexes from `at` on; the other bits
/// stay.
pub fn reverse_bits(to: &mut [u64], at: usize, from: &[u64], low: usize, n: usize)
    requires target { at + n ≤ 64 * length to.old }
    requires source { low + n ≤ 64 * length from.now }
    requires target_size { 64 * length to.old < 2 ^ 64 }
    requires source_size { 64 * length from.now < 2 ^ 64 }
    ensures { bits_of_words to.new
        ≡ spliced at (reverse (taken low n (bits_of_words from.now))) (bits_of_words to.old) }
{
    let mut done = 0;
    while done < n {
        let len = (n - done).min(bits_to_end_of_word(at + done));
        let word = word_at(from, low + (n - done - len), len);
        set_word(to, at + done, len, reversed(word, len));
        done += len;
    }
}

/// The number of n bits that are the lowest ones of a word, the last one first.
#[inline(always)]
pub fn reversed(word: u64, n: usize) -> u64
    requires some { 0 < n }
    requires most { n ≤ 64 }
    ensures bits { low_bits n result ≡ reverse (low_bits n word) }
    ensures fits { result < 2 ^ n }
{
    reversed_whole(word) >> (WORD_SIZE - n)
}

/// The word with its bits in the other order. It goes by digits of four bits, where the kit goes bit by bit.
#[inline(always)]
fn reversed_whole(word: u64) -> u64
    ensures { low_bits word_size result ≡ reverse (low_bits word_size word) }
{
    let (mut rest, mut turned) = (word, 0u64);
    for _ in 0..16usize {
        turned = turned * 16 + TURNED_DIGITS[(rest % 16) as usize];
        rest /= 16;
    }
    turned
}
