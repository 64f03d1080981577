//! Lines of text.
ghost use Rattle.std.specs.Prelude.{◌≡◌, ◌<◌, ◌^◌, ◌∷◌, [], ◌++◌, true, OnOk};
ghost use Rattle.std.specs.Fmt.{decimal, digit_glyph};
ghost use Rattle.std.specs.List.{flat_map};
ghost use Rattle.soak_texts.specs.Lines.{numbered_line, four_digits};

use itoa::Buffer;
use std::alloc::AllocError;

pub(crate) fn put(out: &mut Vec<u8>, bytes: &[u8]) -> Result<(), AllocError>
    ensures { OnOk result (out.new.items ≡ out.old.items ++ bytes.now) }
{
    out.extend_from_slice(bytes)?;
    Ok(())
}

pub(crate) fn put_decimal(out: &mut Vec<u8>, n: u32) -> Result<(), AllocError>
    ensures { OnOk result (out.new.items ≡ out.old.items ++ decimal n) }
{
    let mut digits = Buffer::new();
    put(out, digits.format(n).as_bytes())
}

// Puts a line with a number between two texts.
#[tactic(auto, unfolding(crate::specs::Lines::numbered_line))]
pub(crate) fn put_numbered_line(
    out: &mut Vec<u8>,
    before: &[u8],
    n: u32,
    after: &[u8],
) -> Result<(), AllocError>
    ensures { OnOk result (out.new.items ≡ out.old.items ++ numbered_line before.now n after.now) }
{
    put(out, before)?;
    put_decimal(out, n)?;
    put(out, after)?;
    put(out, b"\n")?;
    Ok(())
}

// An upper-case hexadecimal digit.
fn hex_digit(digit: u16) -> u8
    requires { digit < 16 }
    ensures { result ≡ digit_glyph true digit }
{
    let digit = digit as u8;
    if digit < 10 {
        b'0' + digit
    } else {
        b'A' + (digit - 10)
    }
}

#[tactic(auto, unfolding(crate::specs::Lines::four_digits))]
fn put_four_digits(out: &mut Vec<u8>, n: u16) -> Result<(), AllocError>
    ensures { OnOk result (out.new.items ≡ out.old.items ++ four_digits n) }
{
    let digits = [
        hex_digit(n / 4096),
        hex_digit(n / 256 % 16),
        hex_digit(n / 16 % 16),
        hex_digit(n % 16),
    ];
    put(out, &digits)
}

// Puts each of the numbers with four digits.
pub(crate) fn put_data(out: &mut Vec<u8>, numbers: &[u16]) -> Result<(), AllocError>
    ensures { OnOk result (out.new.items ≡ out.old.items ++ flat_map four_digits numbers.now) }
{
    for number in numbers {
        put_four_digits(out, *number)?;
    }
    Ok(())
}
