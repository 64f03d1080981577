//! Kernels that work on several words at a time, by lanes.
#![tactic(auto)]

ghost use Rattle.std.specs.Prelude.{◌≡◌, ◌↔◌, ◌<◌, ◌≤◌, ◌+◌, ◌*◌, ◌^◌, ℕ, IsTrue, length, take, slice_index};
ghost use Rattle.std.specs.Int.{bit_at};
ghost use Rattle.bit_lanes.specs.Agree.{AgreeInWord, AgreeInWords};
ghost use Rattle.bit_lanes.specs.Pins.{digit_at};

use std::simd::prelude::*;

/// How many words the lanes of a vector hold.
const LANES: usize = 8;

/// Whether the words of two lists agree at each bit that stands under a mask bit 1. All three lists have one length.
pub fn masked_equal(a: &[u64], b: &[u64], mask: &[u64]) -> bool
    requires left { length a.now ≡ length mask.now }
    requires right { length b.now ≡ length mask.now }
    ensures { IsTrue result ↔ AgreeInWords mask.now a.now b.now }
{
    let mut at = 0;
    while mask.len() - at >= LANES {
        if !lanes_agree(a, b, mask, at) {
            return false;
        }
        at += LANES;
    }
    rest_agrees(a, b, mask, at)
}

/// Whether the words at the lanes from `at` on agree under the mask.
#[inline(always)]
fn lanes_agree(a: &[u64], b: &[u64], mask: &[u64], at: usize) -> bool
    requires left { length a.now ≡ length mask.now }
    requires right { length b.now ≡ length mask.now }
    requires inside { at + LANES ≤ length mask.now }
    ensures { IsTrue result ↔ ((i : ℕ) → at ≤ i → i < at + LANES →
        AgreeInWord (slice_index mask.now i) (slice_index a.now i) (slice_index b.now i)) }
{
    let words = u64x8::from_slice(&a[at..]);
    let others = u64x8::from_slice(&b[at..]);
    let masks = u64x8::from_slice(&mask[at..]);
    ((words ^ others) & masks).reduce_or() == 0
}

/// Whether the words from `at` on agree under the mask.
fn rest_agrees(a: &[u64], b: &[u64], mask: &[u64], at: usize) -> bool
    requires left { length a.now ≡ length mask.now }
    requires right { length b.now ≡ length mask.now }
    ensures { IsTrue result ↔ ((i : ℕ) → at ≤ i → i < length mask.now →
        AgreeInWord (slice_index mask.now i) (slice_index a.now i) (slice_index b.now i)) }
{
    for i in at..mask.len() {
        if !word_agrees(a[i], b[i], mask[i]) {
            return false;
        }
    }
    true
}

/// Whether two words agree under the mask.
#[inline(always)]
fn word_agrees(a: u64, b: u64, mask: u64) -> bool
    ensures { IsTrue result ↔ AgreeInWord mask a b }
{
    (a ^ b) & mask == 0
}

/// Makes the words of `to` those of `from`, which has as many.
pub fn copy_words(from: &[u64], to: &mut [u64])
    requires { length from.now ≡ length to.old }
    ensures { to.new ≡ from.now }
{
    let mut at = 0;
    while from.len() - at >= LANES {
        u64x8::from_slice(&from[at..]).copy_to_slice(&mut to[at..]);
        at += LANES;
    }
    copy_rest(from, to, at);
}

/// Makes the words of `to` from `at` on those of `from`, where those before agree already.
fn copy_rest(from: &[u64], to: &mut [u64], at: usize)
    requires whole { length from.now ≡ length to.old }
    requires inside { at ≤ length from.now }
    requires front { take at to.old ≡ take at from.now }
    ensures { to.new ≡ from.now }
{
    for i in at..from.len() {
        to[i] = from[i];
    }
}

/// Writes the digits of n clocks, of which there are at most 64, to the first n bytes; the other bytes stay. The pins
/// of clock i are the bits i of the three words.
pub fn pin_digits(tms: u64, tdi: u64, tdo: u64, n: u32, out: &mut [u8; 64])
    requires { n ≤ 64 }
    ensures first { (i : ℕ) → i < n → slice_index out.new i ≡ digit_at tms tdi tdo i }
    ensures rest { (i : ℕ) → n ≤ i → slice_index out.new i ≡ slice_index out.old i }
{
    let n = n as usize;
    let at = whole_digits(tms, tdi, tdo, n, out);
    rest_digits(tms, tdi, tdo, at, n, out);
}

/// How many clocks have their digits in one vector.
const PINS: usize = 8;

/// The bits of a byte, one a lane.
const PLACES: [u8; PINS] = [1, 2, 4, 8, 16, 32, 64, 128];

/// Writes the digits of the first clocks, as many of the n as fill vectors, and answers how many these are.
fn whole_digits(tms: u64, tdi: u64, tdo: u64, n: usize, out: &mut [u8]) -> usize
    requires most { n ≤ 64 }
    requires room { n ≤ length out.old }
    ensures length { length out.new ≡ length out.old }
    ensures some { result ≤ n }
    ensures first { (i : ℕ) → i < result → slice_index out.new i ≡ digit_at tms tdi tdo i }
    ensures rest { (i : ℕ) → result ≤ i → slice_index out.new i ≡ slice_index out.old i }
{
    let mut at = 0;
    while n - at >= PINS {
        lane_digits(tms >> at, tdi >> at, tdo >> at).copy_to_slice(&mut out[at..]);
        at += PINS;
    }
    at
}

/// Writes the digits of the clocks from `from` to n; the other bytes stay.
fn rest_digits(tms: u64, tdi: u64, tdo: u64, from: usize, n: usize, out: &mut [u8])
    requires most { n ≤ 64 }
    requires some { from ≤ n }
    requires room { n ≤ length out.old }
    ensures digits { (i : ℕ) → from ≤ i → i < n → slice_index out.new i ≡ digit_at tms tdi tdo i }
    ensures front { (i : ℕ) → i < from → slice_index out.new i ≡ slice_index out.old i }
    ensures back { (i : ℕ) → n ≤ i → slice_index out.new i ≡ slice_index out.old i }
{
    for i in from..n {
        out[i] = digit(tms >> i, tdi >> i, tdo >> i);
    }
}

/// The digit of one clock, whose pins are the lowest bits of the three words.
fn digit(tms: u64, tdi: u64, tdo: u64) -> u8
    ensures { result ≡ digit_at tms tdi tdo 0 }
{
    b'0' + (4 * (tms % 2) + 2 * (tdi % 2) + tdo % 2) as u8
}

/// The digits of eight clocks, whose pins are the lowest eight bits of the three words.
#[inline(always)]
fn lane_digits(tms: u64, tdi: u64, tdo: u64) -> u8x8
    ensures length { length result ≡ 8 }
    ensures digits { (i : ℕ) → i < 8 → slice_index result i ≡ digit_at tms tdi tdo i }
{
    u8x8::splat(b'0') + (valued(tms, 4) + (valued(tdi, 2) + valued(tdo, 1)))
}

/// A lane for each of the lowest eight bits of a word: the value where the bit is 1, and else 0.
#[inline(always)]
fn valued(word: u64, value: u8) -> u8x8
    ensures length { length result ≡ 8 }
    ensures values { (i : ℕ) → i < 8 → slice_index result i ≡ value * bit_at word i }
{
    let places = u8x8::from_array(PLACES);
    let bits = u8x8::splat((word & 0xff) as u8) & places;
    bits.simd_eq(places)
        .select(u8x8::splat(value), u8x8::splat(0))
}
