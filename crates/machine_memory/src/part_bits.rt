//! Bits of parts of arrays, in the order that the part gives them.
ghost use Rattle.std.specs.Prelude.{◌≡◌, ◌≤◌, ◌+◌, length};
ghost use Rattle.base.specs.Bits.{number_of};
ghost use Rattle.bit_list.specs.Ranges.{taken, spliced};
ghost use Rattle.stapl_meaning.specs.Values.{first_places, span_bits, turned};
ghost use Rattle.machine_memory.specs.Arrays.{span_in};

use crate::parts::Span;
use bit_list::Bits;

/// The lowest index of the first n places of a part of a list.
pub fn first_places(bits: &Bits, span: Span, n: u32) -> u32
    requires few { n ≤ span.count }
    requires inside { span.low + span.count ≤ length bits.now }
    ensures { result ≡ first_places (span_in span) n }
{
    let _len = bits.len();
    if span.falls {
        span.low + span.count - n
    } else {
        span.low
    }
}

/// The n bits of a part from one of its places on, of which there are at most 64, as a number, the first one lowest.
pub fn part_word(bits: &Bits, span: Span, at: u32, n: u32) -> u64
    requires most { n ≤ 64 }
    requires few { at + n ≤ span.count }
    requires inside { span.low + span.count ≤ length bits.now }
    ensures { result ≡ number_of (taken at n (span_bits (span_in span) bits.now)) }
{
    let _len = bits.len();
    if span.falls {
        bits.reversed_word(span.low + (span.count - at - n), n)
    } else {
        bits.word(span.low + at, n)
    }
}

/// Copies the n bits of a list from an index on, in the other order if they fall.
pub fn copy_turned(to: &mut Bits, at: u32, from: &Bits, low: u32, n: u32, falls: bool)
    requires target { at + n ≤ length to.old }
    requires source { low + n ≤ length from.now }
    ensures copied { to.new ≡ spliced at (turned falls (taken low n from.now)) to.old }
    ensures length { length to.new ≡ length to.old }
{
    let _len = from.len();
    if falls && n > 0 {
        to.reverse_range(at, from, low + n - 1, n);
    } else {
        to.copy_range(at, from, low, n);
    }
}

/// Puts the n bits of a list from an index on in the other order, if they fall.
pub fn turn_within(bits: &mut Bits, low: u32, n: u32, falls: bool)
    requires { low + n ≤ length bits.old }
    ensures { bits.new ≡ spliced low (turned falls (taken low n bits.old)) bits.old }
{
    if falls {
        bits.reverse_within(low, n);
    }
}
