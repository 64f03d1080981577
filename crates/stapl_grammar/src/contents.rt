//! What literals and the digits after CRC hold.
ghost use Rattle.std.specs.Prelude.{◌≡◌, ◌≤◌, ◌%◌, false, IfOk, OnErr, Err, All, length};
ghost use Rattle.std.specs.Str.Parse.{digits_value};
ghost use Rattle.bit_list.specs.Digits.{IsDigit, bits_of_binary, bits_of_hex};
ghost use Rattle.stapl_lexer.specs.Pieces.{text_limit};
ghost use Rattle.stapl_lexer.specs.PieceTokens.{digits_in};
ghost use Rattle.stapl_lexer.specs.declared.token.TokenKind.TheVariants as kinds;
ghost use Rattle.stapl_syntax.specs.Symbols.{check_number};

use crate::refused::Refused;
use bit_list::{Bits, BitsRefused};
use stapl_lexer::{TokenKind, literal_digits};
use std::alloc::{AllocError, Global};

// The number of hexadecimal digits, of which the last four count.
fn number_of(digits: &[u8]) -> u16
    requires { All (IsDigit 16) digits.now }
    ensures { result ≡ digits_value 16 digits.now % 65536 }
{
    let mut number = 0u32;
    for digit in digits {
        let value = char::from(*digit).to_digit(16).unwrap();
        number = (number * 16 + value) % 65_536;
    }
    number as u16
}

// The bits of a literal of binary digits, which has these bytes after its mark.
pub(crate) fn binary_bits(alloc: Global, own: &[u8]) -> Result<Bits, Refused>
    requires { length own.now ≤ text_limit }
    ensures bits { IfOk result (λ bits. bits ≡ bits_of_binary (digits_in kinds.Binary false own.now)) }
    ensures memory { OnErr result (result ≡ Err Refused.Memory) }
{
    let digits = literal_digits(alloc, TokenKind::Binary, own)?;
    match Bits::from_binary(alloc, &digits) {
        Ok(bits) => Ok(bits),
        Err(BitsRefused::Memory) => Err(Refused::Memory),
        Err(BitsRefused::BadDigit(_)) => unreachable!(),
    }
}

// The bits of a literal of hexadecimal digits, which has these bytes after its mark.
pub(crate) fn hexadecimal_bits(alloc: Global, own: &[u8]) -> Result<Bits, Refused>
    requires { length own.now ≤ text_limit }
    ensures bits { IfOk result (λ bits. bits ≡ bits_of_hex (digits_in kinds.Hexadecimal false own.now)) }
    ensures memory { OnErr result (result ≡ Err Refused.Memory) }
{
    let digits = literal_digits(alloc, TokenKind::Hexadecimal, own)?;
    match Bits::from_hex(alloc, &digits) {
        Ok(bits) => Ok(bits),
        Err(BitsRefused::Memory) => Err(Refused::Memory),
        Err(BitsRefused::BadDigit(_)) => unreachable!(),
    }
}

// The number of the digits after CRC.
pub(crate) fn check_number(alloc: Global, own: &[u8]) -> Result<u16, AllocError>
    ensures { IfOk result (λ number. number ≡ check_number own.now) }
{
    let digits = literal_digits(alloc, TokenKind::Hex4, own)?;
    Ok(number_of(&digits))
}
