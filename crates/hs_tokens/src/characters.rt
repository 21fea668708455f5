//! Kinds of bytes, and the values of digits.

ghost use Rattle.std.specs.Prelude.{◌≡◌, ◌-◌, ◌<◌};
ghost use Rattle.hs_tokens.specs.Characters.{is_blank, is_octal, is_hex};
ghost use Rattle.hs_tokens.specs.Literals.{hex_digit_value, is_simple_escape};

/// Whether the byte is a space, tab, VT or FF.
pub(crate) fn is_blank(byte: u8) -> bool
    ensures { result ≡ is_blank byte }
{
    matches!(byte, b' ' | b'\t' | 0x0b | 0x0c)
}

/// Whether the byte is one of `0` to `7`.
pub(crate) fn is_octal(byte: u8) -> bool
    ensures { result ≡ is_octal byte }
{
    matches!(byte, b'0'..=b'7')
}

/// Whether the byte is a hexadecimal digit.
pub(crate) fn is_hex(byte: u8) -> bool
    ensures { result ≡ is_hex byte }
{
    matches!(byte, b'0'..=b'9' | b'A'..=b'F' | b'a'..=b'f')
}

/// The value of an octal digit.
pub(crate) fn octal_digit_value(byte: u8) -> u32
    ensures { result ≡ byte - 48 }
{
    byte.saturating_sub(b'0') as u32
}

/// The value of a hexadecimal digit.
pub(crate) fn hex_digit_value(byte: u8) -> u32
    ensures value { result ≡ hex_digit_value byte }
    ensures bound { result < 256 }
{
    match byte {
        0..=b'9' => byte.saturating_sub(b'0') as u32,
        b':'..=b'F' => byte.saturating_sub(b'A' - 10) as u32,
        _ => byte.saturating_sub(b'a' - 10) as u32,
    }
}

/// Whether the byte after a backslash is an escape by itself (X3.159-1989 3.1.3.4).
pub(crate) fn is_simple_escape(byte: u8) -> bool
    ensures { result ≡ is_simple_escape byte }
{
    matches!(
        byte,
        b'\'' | b'"' | b'?' | b'\\' | b'a' | b'b' | b'f' | b'n' | b'r' | b't' | b'v'
    )
}
