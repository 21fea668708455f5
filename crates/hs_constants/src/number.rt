//! The values of integer constants (X3.159-1989 3.1.3.2).

ghost use Rattle.std.specs.Prelude.{◌≡◌};
ghost use Rattle.hs_constants.specs.Numbers.{with_suffix, hex_number, octal_number, decimal_number, number_value};

use crate::digits::{Base, digits_ahead};

/// An integer constant (X3.159-1989 3.1.3.2).
#[derive(Clone, Copy)]
pub struct Number {
    pub value: u32,
    /// Written in decimal digits, and not in octal or hexadecimal ones.
    pub decimal: bool,
    /// With a `u`.
    pub unsigned: bool,
    /// With an `l`.
    pub long: bool,
}

/// The number with that suffix, if it is one (X3.159-1989 3.1.3.2).
fn with_suffix(value: u32, decimal: bool, suffix: &[u8]) -> Option<Number>
    ensures { result ≡ with_suffix value decimal suffix.now }
{
    let (unsigned, long) = match suffix {
        [] => (false, false),
        [b'u' | b'U'] => (true, false),
        [b'l' | b'L'] => (false, true),
        [b'u' | b'U', b'l' | b'L'] | [b'l' | b'L', b'u' | b'U'] => (true, true),
        _ => return None,
    };
    Some(Number {
        value,
        decimal,
        unsigned,
        long,
    })
}

/// The number with these digits after its 0x, of which it has one at least (X3.159-1989 3.1.3.2).
fn hex_number(text: &[u8]) -> Option<Number>
    ensures { result ≡ hex_number text.now }
{
    let digits = digits_ahead(Base::Hex, text)?;
    if digits.len == 0 {
        return None;
    }
    with_suffix(digits.value, false, &text[digits.len..])
}

/// The number with these digits, of which the first is 0 (X3.159-1989 3.1.3.2).
fn octal_number(text: &[u8]) -> Option<Number>
    ensures { result ≡ octal_number text.now }
{
    let digits = digits_ahead(Base::Octal, text)?;
    with_suffix(digits.value, false, &text[digits.len..])
}

/// The number with these digits, of which the first is another (X3.159-1989 3.1.3.2).
fn decimal_number(text: &[u8]) -> Option<Number>
    ensures { result ≡ decimal_number text.now }
{
    let digits = digits_ahead(Base::Decimal, text)?;
    with_suffix(digits.value, true, &text[digits.len..])
}

/// The value and the suffix of an integer constant of at most 32 bits, if the text is one (X3.159-1989 3.1.3.2).
///
/// Example: `0x1Fu` is 31, unsigned and not decimal; `09` has no value.
pub fn number_value(text: &[u8]) -> Option<Number>
    ensures { result ≡ number_value text.now }
{
    match text {
        [b'0', b'x' | b'X', digits @ ..] => hex_number(digits),
        [b'0', ..] => octal_number(text),
        [b'1'..=b'9', ..] => decimal_number(text),
        _ => None,
    }
}
