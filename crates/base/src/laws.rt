//! Laws of the definitions.
ghost use Rattle.std.specs.Prelude.{◌≡◌, ◌%◌, ◌^◌, ℕ, Bool, List, length};
ghost use Rattle.base.specs.Bits.{low_bits, number_of};

/// The lowest n bits of the number with n bits are these bits.
pub fn bits_of_their_number()
    ensures { (bits : List Bool) → low_bits (length bits) (number_of bits) ≡ bits }
{}

/// The lowest n bits of a number have its value modulo 2 to the power of n.
pub fn number_of_the_lowest_bits()
    ensures { (n x : ℕ) → number_of (low_bits n x) ≡ x % 2 ^ n }
{}

/// The lowest n bits are n bits.
pub fn length_of_the_lowest_bits()
    ensures { (n x : ℕ) → length (low_bits n x) ≡ n }
{}
