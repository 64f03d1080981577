//! Digits of bits.
ghost use Rattle.std.specs.Prelude.{◌≡◌, length, take, min};
ghost use Rattle.drive_cable.specs.Peers.{digits_of};
ghost use Rattle.drive_cable.specs.Digits.{is_digit, digits_first};

// Whether a byte is the digit of a bit.
fn is_digit(byte: u8) -> bool
    ensures { result ≡ is_digit byte }
{
    byte == b'0' || byte == b'1'
}

// Puts the bits of the digits that stand first into a front of the slice, as many as fit, and answers how many those
// are.
pub(crate) fn put_bits(answers: &[u8], into: &mut [bool]) -> usize
    ensures length { length into.new ≡ length into.old }
    ensures count { result ≡ min (digits_first answers.now) (length into.old) }
    ensures bits { digits_of (take result into.new) ≡ take result answers.now }
{
    if answers.is_empty() || into.is_empty() || !is_digit(answers[0]) {
        return 0;
    }
    into[0] = answers[0] == b'1';
    put_bits(&answers[1..], &mut into[1..]) + 1
}
