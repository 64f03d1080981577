//! Fields of a code file.
ghost use Rattle.std.specs.Prelude.{◌≡◌, ◌+◌, ◌-◌, ◌<◌, ◌*◌, ◌^◌, ◌≤◌, ◌∷◌, [], ◌++◌, length, min, drop, OnOk};
ghost use Rattle.std.specs.Int.{w32};
ghost use Rattle.std.specs.Int.RustNames.{FitsSigned};
ghost use Rattle.stapl_code.specs.Files.{head};
ghost use Rattle.stapl_code.specs.Fields.{number, integer, marked, name, text, bytes_for, bytes_of_bits, literal};

use bit_list::Bits;
use stapl_lexer::Name;
use stapl_meaning::{Profile, Text};
use std::alloc::AllocError;

/// The bytes that the file of a code of a profile begins with.
pub(crate) fn head(profile: Profile) -> [u8; 8]
    ensures { result ≡ head profile }
{
    let version = match profile {
        Profile::One => 1,
        Profile::Two => 2,
    };
    [83, 84, 65, 80, 76, 67, 0, version]
}

pub(crate) fn put_byte(out: &mut Vec<u8>, byte: u8) -> Result<(), AllocError>
    ensures { OnOk result (out.new.items ≡ out.old.items ++ byte ∷ []) }
{
    out.push(byte)?;
    Ok(())
}

pub(crate) fn put_bytes(out: &mut Vec<u8>, bytes: &[u8]) -> Result<(), AllocError>
    ensures { OnOk result (out.new.items ≡ out.old.items ++ bytes.now) }
{
    out.extend_from_slice(bytes)?;
    Ok(())
}

pub(crate) fn put_number(out: &mut Vec<u8>, n: u32) -> Result<(), AllocError>
    ensures put { OnOk result (out.new.items ≡ out.old.items ++ number n) }
    ensures fits { n < 2 ^ 32 }
{
    put_bytes(out, &n.to_be_bytes())
}

pub(crate) fn put_count(out: &mut Vec<u8>, count: usize) -> Result<(), AllocError>
    requires { count < 2 ^ 32 }
    ensures { OnOk result (out.new.items ≡ out.old.items ++ number count) }
{
    put_number(out, count as u32)
}

pub(crate) fn put_integer(out: &mut Vec<u8>, value: i32) -> Result<(), AllocError>
    ensures put { OnOk result (out.new.items ≡ out.old.items ++ integer value) }
    ensures fits { FitsSigned w32 value }
{
    put_number(out, value.cast_unsigned())
}

pub(crate) fn put_marked(out: &mut Vec<u8>, mark: u8, n: u32) -> Result<(), AllocError>
    ensures { OnOk result (out.new.items ≡ out.old.items ++ marked mark n) }
{
    put_byte(out, mark)?;
    put_number(out, n)
}

pub(crate) fn put_name(out: &mut Vec<u8>, word: &Name) -> Result<(), AllocError>
    ensures { OnOk result (out.new.items ≡ out.old.items ++ name word.now) }
{
    let bytes = word.bytes();
    put_byte(out, bytes.len() as u8)?;
    put_bytes(out, bytes)
}

pub(crate) fn put_text(out: &mut Vec<u8>, bytes: &Text) -> Result<(), AllocError>
    requires { length bytes.now < 2 ^ 32 }
    ensures { OnOk result (out.new.items ≡ out.old.items ++ text bytes.now) }
{
    put_count(out, bytes.len())?;
    put_bytes(out, bytes.as_slice())
}

// Puts the bytes of the bits from index `at` on, of which a word holds 64 at most.
fn put_word(out: &mut Vec<u8>, bits: &Bits, at: u32) -> Result<(), AllocError>
    requires { at < length bits.now }
    ensures { OnOk result (out.new.items
        ≡ out.old.items ++ bytes_of_bits (min 8 (bytes_for (length bits.now - at))) (drop at bits.now)) }
{
    let n = 64.min(bits.len() - at);
    let bytes = bits.word(at, n).to_le_bytes();
    put_bytes(out, &bytes[..n.div_ceil(8) as usize])
}

pub(crate) fn put_literal(out: &mut Vec<u8>, bits: &Bits) -> Result<(), AllocError>
    ensures { OnOk result (out.new.items ≡ out.old.items ++ literal bits.now) }
{
    put_number(out, bits.len())?;
    for k in 0..bits.len().div_ceil(64) {
        put_word(out, bits, 64 * k)?;
    }
    Ok(())
}
