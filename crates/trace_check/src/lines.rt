//! The lines of a text, and the digits of those that have clocks.
ghost use Rattle.std.specs.Prelude.{◌≡◌, ◌≤◌, ◌<◌, ◌+◌, ℕ, ◌∷◌, ◌==◌, length, drop, None, Some, false};
ghost use Rattle.trace_check.specs.Limits.{trace_limit};
ghost use Rattle.std.specs.List.{position, list_all};
ghost use Rattle.pin_lines.specs.PinLines.{lines_of, is_pin_digit, are_pin_digits, is_bad_line, has_bad_line, line_digits};
ghost use Rattle.pin_lines.specs.FirstFaults.{IsFirstBadLine};

/// The most digits of a line of clocks.
const MOST_DIGITS: usize = 64;

// The place of the first line feed.
fn line_feed_at(bytes: &[u8]) -> Option<usize>
    ensures { result ≡ position (λ b. b == 10) bytes.now }
{
    bytes.iter().position(|byte| *byte == b'\n')
}

/// The first line of some bytes, without its end, and how many bytes it has with its end. The last line may lack its
/// line feed.
pub fn first_line(bytes: &[u8]) -> (&[u8], usize)
    requires { 0 < length bytes.now }
    ensures some { 0 < result.1 }
    ensures within { result.1 ≤ length bytes.now }
    ensures short { length result.0.now ≤ result.1 }
    ensures line { lines_of bytes.now ≡ result.0.now ∷ lines_of (drop result.1 bytes.now) }
{
    match line_feed_at(bytes) {
        Some(at) => (&bytes[..at], at + 1),
        None => (bytes, bytes.len()),
    }
}

fn is_pin_digit(byte: u8) -> bool
    ensures { result ≡ is_pin_digit byte }
{
    byte >= b'0' && byte <= b'7'
}

// Whether all bytes are digits of clocks.
fn all_are_digits(bytes: &[u8]) -> bool
    ensures { result ≡ list_all is_pin_digit bytes.now }
{
    bytes.iter().all(|byte| is_pin_digit(*byte))
}

// Whether bytes are digits of clocks, at least one and no more than a line may have.
fn are_pin_digits(bytes: &[u8]) -> bool
    ensures { result ≡ are_pin_digits bytes.now }
{
    1 <= bytes.len() && bytes.len() <= MOST_DIGITS && all_are_digits(bytes)
}

// Whether a line begins as a line of clocks and has anything else than the digits of one.
fn is_bad_line(line: &[u8]) -> bool
    ensures { result ≡ is_bad_line line.now }
{
    match line {
        [b'C', b' ', digits @ ..] => !are_pin_digits(digits),
        _ => false,
    }
}

/// The digits of a line of clocks, and none of another line.
pub fn digits_of(line: &[u8]) -> &[u8]
    ensures { result.now ≡ line_digits line.now }
{
    match line {
        [b'C', b' ', digits @ ..] => digits,
        _ => &line[..0],
    }
}

/// The number of the first bad line of a text, counted from 1. The time is linear in the length of the text.
pub fn first_bad_line(text: &[u8]) -> Option<u32>
    requires few { length text.now ≤ trace_limit }
    ensures none { result ≡ None → has_bad_line text.now ≡ false }
    ensures some { (n : ℕ) → result ≡ Some n → IsFirstBadLine text.now n }
{
    let mut count: u32 = 0;
    let mut at = 0;
    'lines: while at < text.len() {
        let (line, len) = first_line(&text[at..]);
        count += 1;
        if is_bad_line(line) {
            return Some(count);
        }
        at += len;
    }
    None
}
