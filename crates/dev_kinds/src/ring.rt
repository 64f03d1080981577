//! Rings of bits at the front of a list.
ghost use Rattle.std.specs.Prelude.{◌≡◌, ◌<◌, ◌≤◌, ◌+◌, ◌++◌, ◌^◌, Bool, List, length, take};
ghost use Rattle.base.specs.Bits.{low_bits};
ghost use Rattle.dev_kinds.specs.ShiftRegister.{next_in_ring, rotated};

use crate::blocks::{cut, join, through};
use base::lowest;
use bit_list::Bits;

// The place after this one in a ring.
pub fn next_place(place: u32, len: u32) -> u32
    requires { place < len }
    ensures { result ≡ next_in_ring place len }
{
    if place + 1 == len { 0 } else { place + 1 }
}

// The same place of a ring, which begins anew at its end.
fn wrapped(place: u32, len: u32) -> u32
    requires some { 0 < len }
    requires inside { place ≤ len }
    ensures inside { result < len }
    ensures anew { place ≡ len → result ≡ 0 }
    ensures same { (ring : List Bool) → length ring ≡ len → rotated result ring ≡ rotated place ring }
{
    if place == len { 0 } else { place }
}

// The n bits of a ring from its first one on go out, and those of a number stand in their place, none of which is past
// the end of the ring.
fn exchange(ring: &mut Bits, len: u32, head: u32, number: u64, n: u32) -> u64
    requires most { n ≤ 64 }
    requires inside { head + n ≤ len }
    requires within { len ≤ length ring.old }
    ensures bits { rotated head (take len ring.old) ++ low_bits n number
        ≡ low_bits n result ++ rotated (head + n) (take len ring.new) }
    ensures below { result < 2 ^ n }
    ensures length { length ring.new ≡ length ring.old }
{
    let out = ring.word(head, n);
    ring.set_word(head, n, number);
    out
}

// The first n bits of a ring go out, and those of a number come in after the others: what goes out, and where the ring
// begins.
pub fn turn(ring: &mut Bits, len: u32, head: u32, number: u64, n: u32) -> (u64, u32)
    requires most { n ≤ 64 }
    requires long { n ≤ len }
    requires inside { head < len }
    requires within { len ≤ length ring.old }
    ensures bits { rotated head (take len ring.old) ++ low_bits n number
        ≡ low_bits n result.0 ++ rotated result.1 (take len ring.new) }
    ensures below { result.0 < 2 ^ n }
    ensures inside { result.1 < len }
    ensures length { length ring.new ≡ length ring.old }
{
    let first = n.min(len - head);
    let (near, far) = cut(u128::from(lowest(number, n)), first, n);
    let low = exchange(ring, len, head, near, first);
    let place = wrapped(head + first, len);
    let high = exchange(ring, len, place, far, n - first);
    let (out, _) = cut(join(low, first, high, n - first), n, n);
    (out, wrapped(place + (n - first), len))
}

// The number of a ring of at most 64 bits.
fn number_of_ring(ring: &Bits, len: u32, head: u32) -> u64
    requires short { len ≤ 64 }
    requires inside { head < len }
    requires within { len ≤ length ring.now }
    ensures bits { low_bits len result ≡ rotated head (take len ring.now) }
    ensures below { result < 2 ^ len }
{
    let first = len - head;
    let both = join(ring.word(head, first), first, ring.word(0, head), head);
    let (number, _) = cut(both, len, len);
    number
}

// The bits of a ring of at most 64 bits and those of a number go through it, of which the first n go out. It begins at
// its first place then.
pub fn pass_through(ring: &mut Bits, len: u32, head: u32, number: u64, n: u32) -> u64
    requires most { n ≤ 64 }
    requires short { len ≤ 64 }
    requires inside { head < len }
    requires within { len ≤ length ring.old }
    ensures bits { rotated head (take len ring.old) ++ low_bits n number
        ≡ low_bits n result ++ rotated 0 (take len ring.new) }
    ensures below { result < 2 ^ n }
    ensures length { length ring.new ≡ length ring.old }
{
    let (out, list) = through(number_of_ring(ring, len, head), len, number, n);
    ring.set_word(0, len, list);
    out
}

// Gives the bits of a ring to a list of the same length.
pub fn give_ring(ring: &Bits, len: u32, head: u32, bits: &mut Bits)
    requires inside { head < len }
    requires within { len ≤ length ring.now }
    requires room { length bits.old ≡ len }
    ensures { bits.new ≡ rotated head (take len ring.now) }
{
    let first = len - head;
    bits.copy_range(0, ring, head, first);
    bits.copy_range(first, ring, 0, head);
}
