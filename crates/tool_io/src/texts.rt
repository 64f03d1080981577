//! Parts of lines: a label and a number, digits, a text that is escaped.
ghost use Rattle.std.specs.Prelude.{◌≡◌, ◌≤◌, ◌<◌, ◌^◌, pos};
ghost use Rattle.base.specs.Bits.{low_bits};
ghost use Rattle.bit_list.specs.Hexadecimal.{all_hex_digits};
ghost use Rattle.tool_io.specs.Lines.{IsWhole, HasPut};
ghost use Rattle.tool_io.specs.Texts.{labelled, number_line, word_line, is_plain, escaped_byte, escaped, labelled_text};

use crate::{Failed, Lines, Sink};
use bit_list::{hex_byte, word_digits};

/// Puts a label and a number.
///
/// `Failed` as of the sink.
pub fn put_labelled<K: Sink>(lines: &mut Lines<K>, label: &[u8], n: i64) -> Result<(), Failed>
    requires { IsWhole lines.old }
    ensures { HasPut K.Sink lines.old (labelled label.now n) lines.new result }
{
    lines.put(label)?;
    lines.put_int(n)?;
    Ok(())
}

/// Puts a label and a count.
///
/// `Failed` as of the sink.
pub fn put_count<K: Sink>(lines: &mut Lines<K>, label: &[u8], n: u32) -> Result<(), Failed>
    requires { IsWhole lines.old }
    ensures { HasPut K.Sink lines.old (labelled label.now (pos n)) lines.new result }
{
    put_labelled(lines, label, i64::from(n))
}

/// Puts a label and a size.
///
/// `Failed` as of the sink.
pub fn put_size<K: Sink>(lines: &mut Lines<K>, label: &[u8], n: usize) -> Result<(), Failed>
    requires whole { IsWhole lines.old }
    requires small { n < 2 ^ 63 }
    ensures { HasPut K.Sink lines.old (labelled label.now (pos n)) lines.new result }
{
    put_labelled(lines, label, n as i64)
}

/// Puts a label, a number and a line feed.
///
/// `Failed` as of the sink.
pub fn put_number_line<K: Sink>(lines: &mut Lines<K>, label: &[u8], n: i64) -> Result<(), Failed>
    requires { IsWhole lines.old }
    ensures { HasPut K.Sink lines.old (number_line label.now n) lines.new result }
{
    put_labelled(lines, label, n)?;
    lines.put(b"\n")?;
    Ok(())
}

/// Puts a label, a count and a line feed.
///
/// `Failed` as of the sink.
pub fn put_count_line<K: Sink>(lines: &mut Lines<K>, label: &[u8], n: u32) -> Result<(), Failed>
    requires { IsWhole lines.old }
    ensures { HasPut K.Sink lines.old (number_line label.now (pos n)) lines.new result }
{
    put_number_line(lines, label, i64::from(n))
}

/// Puts a word and a line feed.
///
/// `Failed` as of the sink.
pub fn put_word_line<K: Sink>(lines: &mut Lines<K>, word: &[u8]) -> Result<(), Failed>
    requires { IsWhole lines.old }
    ensures { HasPut K.Sink lines.old (word_line word.now) lines.new result }
{
    lines.put(word)?;
    lines.put(b"\n")?;
    Ok(())
}

/// Puts the hexadecimal digits of the lowest `len` bits of a number, as many as they need, the highest first. The
/// number has no other bits, and there are at most 64.
///
/// `Failed` as of the sink.
pub fn put_hex<K: Sink>(lines: &mut Lines<K>, number: u64, len: u32) -> Result<(), Failed>
    requires whole { IsWhole lines.old }
    requires most { len ≤ 64 }
    requires fits { number < 2 ^ len }
    ensures { HasPut K.Sink lines.old (all_hex_digits (low_bits len number)) lines.new result }
{
    let digits = word_digits(number);
    let first = 16 - len.div_ceil(4) as usize;
    lines.put(&digits[first..])
}

fn is_plain_byte(byte: u8) -> bool
    ensures { result ≡ is_plain byte }
{
    byte >= 32 && byte <= 126 && byte != b'\\'
}

// Puts a byte of a text, which is escaped if it is not plain.
fn put_escaped_byte<K: Sink>(lines: &mut Lines<K>, byte: u8) -> Result<(), Failed>
    requires { IsWhole lines.old }
    ensures { HasPut K.Sink lines.old (escaped_byte byte) lines.new result }
{
    if is_plain_byte(byte) {
        return lines.put(&[byte]);
    }
    lines.put(&[b'\\', hex_byte(byte / 16), hex_byte(byte % 16)])
}

/// Puts a text, escaped: a byte that is no printable character of ASCII, and a backslash, as a backslash and two
/// hexadecimal digits.
///
/// `Failed` as of the sink.
pub fn put_escaped<K: Sink>(lines: &mut Lines<K>, text: &[u8]) -> Result<(), Failed>
    requires { IsWhole lines.old }
    ensures { HasPut K.Sink lines.old (escaped text.now) lines.new result }
{
    for byte in text {
        put_escaped_byte(lines, *byte)?;
    }
    Ok(())
}

/// Puts a label and a text, which is escaped.
///
/// `Failed` as of the sink.
pub fn put_labelled_text<K: Sink>(
    lines: &mut Lines<K>,
    label: &[u8],
    text: &[u8],
) -> Result<(), Failed>
    requires { IsWhole lines.old }
    ensures { HasPut K.Sink lines.old (labelled_text label.now text.now) lines.new result }
{
    lines.put(label)?;
    put_escaped(lines, text)?;
    Ok(())
}
