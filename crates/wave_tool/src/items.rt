//! The wait of a line.
ghost use Rattle.std.specs.Prelude.{◌≡◌, ◌≤◌, IfSome};
ghost use Rattle.wave_tool.specs.Found.{waits_found};
ghost use Rattle.wave_tool.specs.Items.{most_usec, waits_in, line_waits};

use base::is_decimal;
use stapl_lexer::capped_digits;

/// The longest wait of a line, in microseconds.
const MOST_USEC: u64 = 4_294_967_295;

// The number of microseconds that bytes spell, if they spell one.
fn usec_spelled(bytes: &[u8]) -> Option<u64>
    ensures short { IfSome result (λ usec. usec ≤ most_usec) }
    ensures wait { waits_found result ≡ waits_in bytes.now }
{
    if !is_decimal(bytes) {
        return None;
    }
    let usec = capped_digits(bytes, MOST_USEC + 1);
    if usec <= MOST_USEC { Some(usec) } else { None }
}

/// The wait of a line, in microseconds, if it says one.
pub(crate) fn wait_of(line: &[u8]) -> Option<u64>
    ensures short { IfSome result (λ usec. usec ≤ most_usec) }
    ensures wait { waits_found result ≡ line_waits line.now }
{
    match line {
        [b'W', b' ', rest @ ..] => usec_spelled(rest),
        _ => None,
    }
}
