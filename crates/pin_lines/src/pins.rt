//! The three pins of a digit.
ghost use Rattle.std.specs.Prelude.{◌≡◌, ◌≤◌};
ghost use Rattle.pin_lines.specs.PinLines.{input_of_pin, clock_of_pin};

/// TMS of a clock's digit, from `0` on.
pub fn tms_of(digit: u8) -> bool
    requires { 48 ≤ digit }
    ensures { result ≡ (input_of_pin digit).tms }
{
    4 <= digit - 48
}

/// TDI of a clock's digit, from `0` on.
pub fn tdi_of(digit: u8) -> bool
    requires { 48 ≤ digit }
    ensures { result ≡ (input_of_pin digit).tdi }
{
    2 <= (digit - 48) % 4
}

/// TDO of a clock's digit, from `0` on.
pub fn tdo_of(digit: u8) -> bool
    requires { 48 ≤ digit }
    ensures { result ≡ (clock_of_pin digit).tdo }
{
    (digit - 48) % 2 == 1
}
