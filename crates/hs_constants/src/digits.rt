//! Digits in a base, and the number that they make.

ghost use Rattle.std.specs.Prelude.{◌≡◌, ◌+◌, ◌*◌, ◌^◌, ◌<◌, ◌≤◌, Some, None, if◌then◌else◌, length, IfSome, SomeIff};
ghost use Rattle.hs_constants.specs.Digits.{radix, is_digit_of, digit_value, IsRun};

/// A base in which constants and escapes are written (X3.159-1989 3.1.3.2 and 3.1.3.4).
#[derive(Clone, Copy)]
pub(crate) enum Base {
    Octal,
    Decimal,
    Hex,
}

/// The digits at the front of a text.
#[derive(Clone, Copy)]
pub(crate) struct Digits {
    pub(crate) value: u32,
    pub(crate) len: usize,
}

/// How many digits the base has.
fn radix(base: Base) -> u32
    ensures { result ≡ radix base }
{
    match base {
        Base::Octal => 8,
        Base::Decimal => 10,
        Base::Hex => 16,
    }
}

/// The value of a digit, or nothing if the byte is not a digit of that base.
fn digit_of(base: Base, byte: u8) -> Option<u32>
    ensures { result ≡ (if is_digit_of base byte then Some (digit_value base byte) else None) }
{
    let value = match (base, byte) {
        (Base::Octal, b'0'..=b'7') => byte - b'0',
        (Base::Decimal | Base::Hex, b'0'..=b'9') => byte - b'0',
        (Base::Hex, b'A'..=b'F') => byte - b'A' + 10,
        (Base::Hex, b'a'..=b'f') => byte - b'a' + 10,
        _ => return None,
    };
    Some(value as u32)
}

/// The value with one more digit, if it has 32 bits.
fn with_digit(base: Base, value: u32, digit: u32) -> Option<u32>
    ensures { SomeIff result (radix base * value + digit < 2 ^ 32) (radix base * value + digit) }
{
    value.checked_mul(radix(base))?.checked_add(digit)
}

/// The digits of the base at the front of a text, or nothing if their value has more than 32 bits.
pub(crate) fn digits_ahead(base: Base, text: &[u8]) -> Option<Digits>
    ensures digits { IsRun base text.now result }
    ensures within { IfSome result (λ found. found.len ≤ length text.now) }
{
    let mut value: u32 = 0;
    let mut len = 0;
    let mut rest = text;
    'digits: while let Some((byte, after)) = rest.split_first() {
        let Some(digit) = digit_of(base, *byte) else {
            break;
        };
        value = with_digit(base, value, digit)?;
        len += 1;
        rest = after;
    }
    Some(Digits { value, len })
}
