//! The check word of a text.
ghost use Rattle.std.specs.Prelude.{◌≡◌};
ghost use Rattle.stapl_lexer.specs.Crc.{remainder_after, remainder, bits_of_byte, check_word};

// The CCITT polynomial with its bits reversed.
const POLYNOMIAL: u16 = 0x8408;

// The remainder after one more bit.
fn after_bit(crc: u16, bit: bool) -> u16
    ensures { result ≡ remainder_after crc bit }
{
    let half = crc >> 1;
    if (crc % 2 == 1) == bit {
        half
    } else {
        half ^ POLYNOMIAL
    }
}

// The remainder after the bits of one more byte, the lowest first. A carriage return has none.
fn after_byte(mut crc: u16, byte: u8) -> u16
    ensures { result ≡ remainder crc (bits_of_byte byte) }
{
    if byte == b'\r' {
        return crc;
    }
    let mut bits = byte;
    for _turn in 0..8u32 {
        crc = after_bit(crc, bits % 2 == 1);
        bits /= 2;
    }
    crc
}

/// The check word of a text: the reflected CCITT remainder with the polynomial 8408 hex, started with FFFF hex and
/// complemented at the end, over all bytes but carriage returns (JESD71, CRC statement). That of `123456789` is 906E
/// hex.
pub fn crc_of(bytes: &[u8]) -> u16
    ensures { result ≡ check_word bytes.now }
{
    let mut crc = u16::MAX;
    for byte in bytes {
        crc = after_byte(crc, *byte);
    }
    !crc
}
