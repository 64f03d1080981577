//! Numbers as they are spelled in words.
ghost use Rattle.std.specs.Prelude.{◌≡◌};
ghost use Rattle.std.specs.Char.{is_ascii_digit};
ghost use Rattle.std.specs.List.{list_all};
ghost use Rattle.base.specs.Decimals.{is_decimal};

fn has_digits(spelling: &[u8]) -> bool
    ensures { result ≡ list_all is_ascii_digit spelling.now }
{
    spelling.iter().all(|byte| byte.is_ascii_digit())
}

/// Whether a number is spelled in decimal digits alone, without a sign and without a leading zero.
pub fn is_decimal(spelling: &[u8]) -> bool
    ensures { result ≡ is_decimal spelling.now }
{
    !spelling.is_empty() && has_digits(spelling) && (spelling.len() == 1 || spelling[0] != b'0')
}
