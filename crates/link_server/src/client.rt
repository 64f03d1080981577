//! What each client of a link needs: the bytes of a clock, the bits of its answers, and a count of what went wrong.
ghost use Rattle.std.specs.Prelude.{◌≡◌, ◌+◌, ◌*◌, ◌^◌, ◌<◌, ◌==◌, ◌&&◌};
ghost use Rattle.base.specs.Bits.{bit_value};
ghost use Rattle.tool_io.specs.Causes.{IsSaturated, CountKept, CountRose, raised_count};
ghost use Rattle.link_server.specs.Clients.{bytes_of_input};

/// Counts one fault more, up to the last value of the type.
pub fn raise(count: &mut u64)
    ensures raised { count.new ≡ raised_count count.old }
    ensures kept { CountKept count.old count.new (IsSaturated count.old) (IsSaturated count.new) }
    ensures rose { CountRose count.old count.new (IsSaturated count.new) }
{
    *count = count.saturating_add(1);
}

/// The bytes of one clock: TCK low, a question for TDO, and TCK high.
pub fn clock_bytes(tms: bool, tdi: bool) -> [u8; 3]
    ensures { result ≡ bytes_of_input (record { tms = tms; tdi = tdi }) }
{
    let levels = b'0' + if tms { 2 } else { 0 } + if tdi { 1 } else { 0 };
    [levels, b'R', levels + 4]
}

/// Whether TMS is 1 at the first of n clocks, of which the last one is marked or not.
pub fn is_last(last: bool, n: u32) -> bool
    ensures { result ≡ (last && (n == 1)) }
{
    last && n == 1
}

/// One bit more at the lowest place of a number of n bits.
pub fn with_bit(rest: u64, bit: bool, n: u32) -> u64
    requires few { n < 64 }
    requires small { rest < 2 ^ n }
    ensures value { result ≡ bit_value bit + 2 * rest }
    ensures small { result < 2 ^ (n + 1) }
{
    let double = rest * 2;
    if bit { double + 1 } else { double }
}
