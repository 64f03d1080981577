//! Blocks of at most 64 bits that go through a list.
ghost use Rattle.std.specs.Prelude.{◌≡◌, ◌<◌, ◌≤◌, ◌+◌, ◌-◌, ◌^◌, ◌++◌};
ghost use Rattle.base.specs.Bits.{low_bits};

use base::lowest;

// n bits come into a list of so many, after its own, and the first n go out: what goes out, and the list.
pub fn through(list: u64, len: u32, number: u64, n: u32) -> (u64, u64)
    requires short { len ≤ 64 }
    requires list { list < 2 ^ len }
    requires most { n ≤ 64 }
    ensures bits { low_bits len list ++ low_bits n number ≡ low_bits n result.0 ++ low_bits len result.1 }
    ensures out { result.0 < 2 ^ n }
    ensures list { result.1 < 2 ^ len }
{
    cut(join(list, len, lowest(number, n), n), n, len + n)
}

// The bits of two numbers in a row.
pub fn join(low: u64, len: u32, high: u64, n: u32) -> u128
    requires short { len ≤ 64 }
    requires low { low < 2 ^ len }
    requires most { n ≤ 64 }
    requires high { high < 2 ^ n }
    ensures bits { low_bits (len + n) result ≡ low_bits len low ++ low_bits n high }
    ensures below { result < 2 ^ (len + n) }
{
    u128::from(low) + (u128::from(high) << len)
}

// The first n bits of a number of so many bits, and the rest of them.
pub fn cut(number: u128, n: u32, len: u32) -> (u64, u64)
    requires most { n ≤ 64 }
    requires inside { n ≤ len }
    requires rest { len ≤ n + 64 }
    requires below { number < 2 ^ len }
    ensures bits { low_bits len number ≡ low_bits n result.0 ++ low_bits (len - n) result.1 }
    ensures first { result.0 < 2 ^ n }
    ensures second { result.1 < 2 ^ (len - n) }
{
    ((number % (1u128 << n)) as u64, (number >> n) as u64)
}
