//! Reads hexadecimal digits and decimal numbers.

ghost use Rattle.std.specs.Prelude.{◌≡◌, ◌<◌, ◌≤◌, IfOk, IfSome};
ghost use Rattle.hs_meaning.specs.InputTexts.{begins_number, digit, hex_byte, hex_bytes, number_in, value_after, within};

use hs_base::{Bytes, NoMemory};
use std::alloc::Global;

/// The value of a digit of that base: 0 to 9, then the letters in either case.
fn digit(base: u32, byte: u8) -> Option<u32>
    requires low { 2 ≤ base }
    requires high { base ≤ 36 }
    ensures value { result ≡ digit base byte }
    ensures below { IfSome result (λ value. value < base) }
{
    char::from(byte).to_digit(base)
}

/// The byte that two hexadecimal digits are.
fn hex_byte(high: u8, low: u8) -> Option<u8>
    ensures { result ≡ hex_byte high low }
{
    let sixteens = digit(16, high)?;
    let ones = digit(16, low)?;
    Some((16 * sixteens + ones) as u8)
}

/// The bytes that hexadecimal digits are, two digits for each.
pub(super) fn hex_bytes(alloc: Global, text: &[u8]) -> Result<Option<Bytes>, NoMemory>
    ensures { IfOk result (λ bytes. bytes ≡ hex_bytes text.now) }
{
    let mut bytes = Vec::new(alloc);
    let mut rest = text;
    'pairs: while let [high, low, left @ ..] = rest {
        let Some(byte) = hex_byte(*high, *low) else {
            return Ok(None);
        };
        bytes.push(byte)?;
        rest = left;
    }
    Ok(rest.is_empty().then(|| Bytes::from_vec(bytes)))
}

/// Whether the text is not empty, and has no leading zero.
fn begins_number(text: &[u8]) -> bool
    ensures { result ≡ begins_number text.now }
{
    match text {
        [] => false,
        [_] => true,
        [first, _, ..] => *first != b'0',
    }
}

/// The value of decimal digits, if it is in the range.
fn value_in(least: u32, most: u32, text: &[u8]) -> Option<u32>
    ensures { result ≡ within least most (value_after 0 text.now) }
{
    let mut value = 0;
    'digits: for byte in text {
        value = value * 10 + u64::from(digit(10, *byte)?);
        if value > u64::from(most) {
            return None;
        }
    }
    (value >= u64::from(least)).then_some(value as u32)
}

/// The decimal number that the text is, if it is in the range.
pub(super) fn number_in(least: u32, most: u32, text: &[u8]) -> Option<u32>
    ensures { result ≡ number_in least most text.now }
{
    if begins_number(text) {
        value_in(least, most, text)
    } else {
        None
    }
}
