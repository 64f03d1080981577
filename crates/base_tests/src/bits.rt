//! Tests of lists of bits, with vectors from outside.
use bit_list::{Bits, BitsRefused, MOST_DIGITS};
use std::alloc::{AllocError, Global};
use std::test::Fail;

/// Hexadecimal digits, and their bits, the lowest index on the left.
const HEX: [(&str, &str); 9] = [
    ("", ""),
    ("0", "0000"),
    ("8", "0001"),
    ("a5", "10100101"),
    ("1B3", "110011011000"),
    ("00f", "111100000000"),
    ("CAFE", "0111111101010011"),
    ("DeadBeef", "11110111011111011011010101111011"),
    ("123456789", "100100011110011010100010110001001000"),
];

/// Binary digits, and their bits, the lowest index on the left.
const BINARY: [(&str, &str); 6] = [
    ("", ""),
    ("0", "0"),
    ("1", "1"),
    ("110", "011"),
    ("0001", "1000"),
    ("1011000111", "1110001101"),
];

/// What is not hexadecimal, and the place of the first byte that is no digit.
const NO_HEX: [(&str, u32); 9] = [
    ("G", 0),
    ("g1", 0),
    ("0x1", 1),
    ("12 34", 2),
    ("AZ", 1),
    ("a/:", 1),
    ("9@`", 1),
    ("00-", 2),
    ("FFFF\n", 4),
];

/// What is not binary, and the place of the first byte that is no digit.
const NO_BINARY: [(&str, u32); 5] = [("12", 1), ("2", 0), ("01 ", 2), ("1101a2", 4), ("/", 0)];

/// The integers of the lowest 0 to 32 of the bits from index 5 on of the list of the hexadecimal digits 96C3A5F0E1.
const INTEGERS: [i32; 33] = [
    0,
    1,
    3,
    7,
    7,
    7,
    7,
    7,
    135,
    391,
    903,
    1927,
    3975,
    3975,
    12167,
    12167,
    12167,
    77703,
    77703,
    339847,
    864135,
    1912711,
    1912711,
    1912711,
    1912711,
    1912711,
    35467143,
    102576007,
    102576007,
    371011463,
    907882375,
    907882375,
    -1239601273,
];

/// Integers, and the hexadecimal digits of their 32 bits.
const INTEGER_BITS: [(i32, &str); 9] = [
    (0, "00000000"),
    (1, "00000001"),
    (-1, "FFFFFFFF"),
    (-2, "FFFFFFFE"),
    (2147483647, "7FFFFFFF"),
    (-2147483648, "80000000"),
    (305419896, "12345678"),
    (-305419897, "EDCBA987"),
    (-65536, "FFFF0000"),
];

/// A copy of a range: the target, the index in it, the source, the index in it, how many bits, and the target
/// afterwards, all as binary digits, the highest index on the left.
const COPIES: [(&str, u32, &str, u32, u32, &str); 8] = [
    ("0000", 0, "1111", 0, 4, "1111"),
    ("0000", 0, "1111", 0, 0, "0000"),
    ("0000", 4, "1111", 4, 0, "0000"),
    ("0000", 3, "1000", 3, 1, "1000"),
    ("1111", 1, "110", 0, 2, "1101"),
    ("0000000", 4, "1011", 1, 3, "1010000"),
    ("", 0, "", 0, 0, ""),
    ("110011", 2, "0110", 1, 2, "111111"),
];

/// A comparison: two lists, the mask, how many bits, and whether they agree, all as binary digits, the highest index on
/// the left.
const COMPARISONS: [(&str, &str, &str, u32, bool); 9] = [
    ("1010", "1010", "1111", 4, true),
    ("1010", "1011", "1111", 4, false),
    ("1010", "1011", "1110", 4, true),
    ("1010", "0010", "1111", 4, false),
    ("1010", "0010", "1111", 3, true),
    ("1010", "0010", "0111", 4, true),
    ("1010", "0101", "0000", 4, true),
    ("1", "0", "1", 0, true),
    ("", "", "", 0, true),
];

/// Whether the list has the bits that are written as this text, the lowest index on the left.
fn is_written(bits: &Bits, text: &str) -> bool {
    let text = text.as_bytes();
    if bits.len() as usize != text.len() {
        return false;
    }
    for i in 0..bits.len() {
        if bits.get(i) != (text[i as usize] == b'1') {
            return false;
        }
    }
    true
}

/// The list of these binary digits, of which there are few.
fn binary(alloc: Global, text: &str) -> Result<Bits, BitsRefused> {
    let digits = text.as_bytes();
    if digits.len() > MOST_DIGITS {
        return Err(BitsRefused::Memory);
    }
    Bits::from_binary(alloc, digits)
}

/// The list of these hexadecimal digits, of which there are few.
fn hex(alloc: Global, text: &str) -> Result<Bits, BitsRefused> {
    let digits = text.as_bytes();
    if digits.len() > MOST_DIGITS {
        return Err(BitsRefused::Memory);
    }
    Bits::from_hex(alloc, digits)
}

/// Whether the hexadecimal digits give the list that is written as this text, the lowest index on the left.
fn hex_gives(alloc: Global, digits: &str, text: &str) -> bool {
    match hex(alloc, digits) {
        Ok(bits) => is_written(&bits, text),
        Err(_) => false,
    }
}

/// The same of binary digits.
fn binary_gives(alloc: Global, digits: &str, text: &str) -> bool {
    match binary(alloc, digits) {
        Ok(bits) => is_written(&bits, text),
        Err(_) => false,
    }
}

/// The place of the byte for which a text is refused, if it is.
fn refused_at(read: Result<Bits, BitsRefused>) -> Option<u32> {
    match read {
        Err(BitsRefused::BadDigit(place)) => Some(place),
        _ => None,
    }
}

#[test]
fn reads_hexadecimal_digits(rt: HostRuntime) {
    for (digits, bits) in HEX {
        assert!(rt; hex_gives(rt.alloc(), digits, bits), "at {digits}");
    }
    for (digits, place) in NO_HEX {
        let refused = refused_at(hex(rt.alloc(), digits));
        assert!(rt; refused == Some(place), "at {digits}");
    }
}

#[test]
fn reads_binary_digits(rt: HostRuntime) {
    for (digits, bits) in BINARY {
        assert!(rt; binary_gives(rt.alloc(), digits, bits), "at {digits}");
    }
    for (digits, place) in NO_BINARY {
        let refused = refused_at(binary(rt.alloc(), digits));
        assert!(rt; refused == Some(place), "at {digits}");
    }
}

/// Whether a list of five bits has those that were set, and a copy of it those of before.
fn changed(alloc: Global) -> Result<bool, AllocError> {
    let mut bits = Bits::zeros(alloc, 5)?;
    let is_zero = is_written(&bits, "00000") && !bits.is_empty();
    bits.set(1, true);
    bits.set(4, true);
    let copy = bits.copied(alloc)?;
    bits.set(4, false);
    Ok(is_zero && is_written(&bits, "01000") && is_written(&copy, "01001") && bits != copy)
}

#[test]
fn changes_bits(rt: HostRuntime) -> Result<(), Fail> {
    assert!(rt; changed(rt.alloc())?);
    Ok(())
}

/// Whether the list has these binary digits.
fn is_binary(alloc: Global, bits: &Bits, digits: &str) -> Result<bool, BitsRefused> {
    let wanted = binary(alloc, digits)?;
    Ok(*bits == wanted)
}

/// The target after the copy of a range, if both ranges lie in their lists.
fn copied(
    alloc: Global,
    target: &str,
    at: u32,
    source: &str,
    low: u32,
    n: u32,
) -> Result<Bits, BitsRefused> {
    let mut bits = binary(alloc, target)?;
    let from = binary(alloc, source)?;
    if at <= bits.len() && n <= bits.len() - at && low <= from.len() && n <= from.len() - low {
        bits.copy_range(at, &from, low, n);
    }
    Ok(bits)
}

#[test]
fn copies_ranges(rt: HostRuntime) -> Result<(), Fail> {
    for (target, at, source, low, n, wanted) in COPIES {
        let bits = copied(rt.alloc(), target, at, source, low, n)?;
        let is_as_wanted = is_binary(rt.alloc(), &bits, wanted)?;
        assert!(rt; is_as_wanted, "into {target}");
    }
    Ok(())
}

/// Whether the lowest bits of two lists agree under a mask, if the lists have so many.
fn agree(
    alloc: Global,
    left: &str,
    right: &str,
    mask: &str,
    n: u32,
) -> Result<Option<bool>, BitsRefused> {
    let a = binary(alloc, left)?;
    let b = binary(alloc, right)?;
    let under = binary(alloc, mask)?;
    if n <= a.len() && n <= b.len() && n <= under.len() {
        Ok(Some(a.masked_equal(&b, &under, n)))
    } else {
        Ok(None)
    }
}

#[test]
fn compares_under_a_mask(rt: HostRuntime) -> Result<(), Fail> {
    for (left, right, mask, n, wanted) in COMPARISONS {
        let found = agree(rt.alloc(), left, right, mask, n)?;
        assert!(rt; found == Some(wanted), "{left} under {mask}");
    }
    Ok(())
}

#[test]
fn reads_integers(rt: HostRuntime) -> Result<(), Fail> {
    let bits = hex(rt.alloc(), "96C3A5F0E1")?;
    assert!(rt; bits.len() == 40);
    for n in 0..33 {
        assert!(rt; bits.to_int(5, n) == INTEGERS[n as usize], "{n} bits");
    }
    Ok(())
}

/// Whether an integer has these hexadecimal digits, and the integer that is read of its bits.
fn written(alloc: Global, value: i32, digits: &str) -> Result<(bool, i32), BitsRefused> {
    let Ok(mut bits) = Bits::zeros(alloc, 32) else {
        return Err(BitsRefused::Memory);
    };
    bits.set_int(value);
    let wanted = hex(alloc, digits)?;
    Ok((bits == wanted, bits.to_int(0, 32)))
}

#[test]
fn writes_integers(rt: HostRuntime) -> Result<(), Fail> {
    for (value, digits) in INTEGER_BITS {
        let found = written(rt.alloc(), value, digits)?;
        assert!(rt; found == (true, value), "the bits of {value}");
    }
    Ok(())
}

#[test]
fn writes_the_lowest_bits(rt: HostRuntime) -> Result<(), Fail> {
    let mut longer = hex(rt.alloc(), "800000000")?;
    assert!(rt; longer.len() == 36);
    longer.set_int(-1);
    assert!(rt; longer.to_int(4, 32) == -1_879_048_193);
    let wanted = hex(rt.alloc(), "8FFFFFFFF")?;
    assert!(rt; longer == wanted);
    Ok(())
}
