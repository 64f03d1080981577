//! Lists of bits that are changed as a whole.
ghost use Rattle.std.specs.Prelude.{◌≡◌, length, replicate};
ghost use Rattle.dev_card.specs.Card.{and_bits};

use bit_list::Bits;

// How many bits are changed at a time.
const WORD_SIZE: u32 = 64;

// Every bit becomes this one.
pub fn fill_bits(bits: &mut Bits, bit: bool)
    ensures { bits.new ≡ replicate (length bits.old) bit }
{
    bits.fill_range(0, bits.len(), bit);
}

// The bits that are 1 in the other list too stay 1; the others become 0.
pub fn keep_common(bits: &mut Bits, other: &Bits)
    requires { length other.now ≡ length bits.old }
    ensures { bits.new ≡ and_bits bits.old other.now }
{
    let len = bits.len();
    let mut done = 0;
    while done < len {
        let n = (len - done).min(WORD_SIZE);
        let common = bits.word(done, n) & other.word(done, n);
        bits.set_word(done, n, common);
        done += n;
    }
}
