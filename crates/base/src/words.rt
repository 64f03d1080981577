//! Numbers of 64 bits.
ghost use Rattle.std.specs.Prelude.{◌≡◌, ◌≤◌};
ghost use Rattle.base.specs.Bits.{low_bits, number_of};

// How many bits a word has.
const WORD_SIZE: u32 = 64;

/// The lowest n bits of a number, with zeros above them.
pub fn lowest(number: u64, n: u32) -> u64
    requires { n ≤ 64 }
    ensures { result ≡ number_of (low_bits n number) }
{
    if n < WORD_SIZE {
        number % (1u64 << n)
    } else {
        number
    }
}
