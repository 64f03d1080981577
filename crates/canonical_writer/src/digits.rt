//! The digits of literals.
ghost use Rattle.std.specs.Prelude.{◌≡◌, ◌++◌, ◌%◌, length, OnOk};
ghost use Rattle.bit_list.specs.Hexadecimal.{all_hex_digits};
ghost use Rattle.canonical_text.specs.PrintedTokens.{binary_digits};

use bit_list::{Bits, hex_byte};
use std::alloc::AllocError;

/// Pushes the hexadecimal digits of bits, of which four go into each.
pub(crate) fn push_hex_digits(out: &mut Vec<u8>, bits: &Bits) -> Result<(), AllocError>
    requires { length bits.now % 4 ≡ 0 }
    ensures { OnOk result (out.new.items ≡ out.old.items ++ all_hex_digits bits.now) }
{
    let mut left = bits.len() / 4;
    while left > 0 {
        left -= 1;
        let digit = bits.word(4 * left, 4);
        out.push(hex_byte(digit as u8))?;
    }
    Ok(())
}

/// Pushes the binary digits of bits.
pub(crate) fn push_binary_digits(out: &mut Vec<u8>, bits: &Bits) -> Result<(), AllocError>
    ensures { OnOk result (out.new.items ≡ out.old.items ++ binary_digits bits.now) }
{
    let mut left = bits.len();
    while left > 0 {
        left -= 1;
        let digit = if bits.get(left) { b'1' } else { b'0' };
        out.push(digit)?;
    }
    Ok(())
}
