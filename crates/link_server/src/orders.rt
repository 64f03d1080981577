//! What the bytes of a link mean (the protocol remote bitbang, in this profile).
ghost use Rattle.std.specs.Prelude.{◌≡◌, ◌≤◌};
ghost use Rattle.link_server.specs.Orders.{levels_of, is_idle_byte, order_of};

/// The levels that a byte sets.
#[derive(Clone, Copy)]
pub struct Levels {
    pub tck: bool,
    pub tms: bool,
    pub tdi: bool,
}

/// What a byte means.
#[derive(Clone, Copy)]
pub enum Order {
    /// It sets these levels.
    Set(Levels),
    /// It asks for TDO.
    Ask,
    /// It changes nothing.
    Nothing,
    /// It ends the session.
    Quit,
    /// It has no meaning here.
    Refused,
}

fn levels_of(byte: u8) -> Levels
    requires { 48 ≤ byte }
    ensures { result ≡ levels_of byte }
{
    let levels = byte - b'0';
    Levels {
        tck: 4 <= levels,
        tms: 2 <= levels % 4,
        tdi: levels % 2 == 1,
    }
}

fn is_idle_byte(byte: u8) -> bool
    ensures { result ≡ is_idle_byte byte }
{
    b"Bbrstu".iter().any(|idle| *idle == byte)
}

pub(crate) fn order_of(byte: u8) -> Order
    ensures { result ≡ order_of byte }
{
    if byte >= b'0' && byte <= b'7' {
        Order::Set(levels_of(byte))
    } else if is_idle_byte(byte) {
        Order::Nothing
    } else if byte == b'R' {
        Order::Ask
    } else if byte == b'Q' {
        Order::Quit
    } else {
        Order::Refused
    }
}
