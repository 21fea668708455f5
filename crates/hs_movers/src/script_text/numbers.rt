//! Reads decimal numbers.

ghost use Rattle.std.specs.Prelude.{◌≡◌, ◌≤◌, ◌<◌, ◌==◌, IfOk, IfSome};
ghost use Rattle.std.specs.List.{slice_split};
ghost use Rattle.hs_meaning.specs.InputTexts.{begins_number, digit, number_in, value_after, within};
ghost use Rattle.hs_movers.specs.ScriptTexts.{numbers_in};

use hs_base::{NoMemory, Numbers};
use std::alloc::Global;

/// The value of a decimal digit.
fn digit(byte: u8) -> Option<u32>
    ensures value { result ≡ digit 10 byte }
    ensures below { IfSome result (λ value. value < 10) }
{
    char::from(byte).to_digit(10)
}

/// Whether the text is not empty, and has no leading zero.
fn begins_number(text: &[u8]) -> bool
    ensures { result ≡ begins_number text.now }
{
    match text {
        [] => false,
        [_] => true,
        [first, _, ..] => *first != b'0',
    }
}

/// The value of decimal digits, if it is in the range.
fn value_in(least: u64, most: u64, text: &[u8]) -> Option<u64>
    ensures value { result ≡ within least most (value_after 0 text.now) }
    ensures bound { IfSome result (λ value. value ≤ most) }
{
    let mut value = 0;
    'digits: for byte in text {
        value = value * 10 + u128::from(digit(*byte)?);
        if value > u128::from(most) {
            return None;
        }
    }
    (value >= u128::from(least)).then_some(value as u64)
}

/// The decimal number that the text is, if it is in the range.
pub(super) fn number_in(least: u64, most: u64, text: &[u8]) -> Option<u64>
    ensures value { result ≡ number_in least most text.now }
    ensures bound { IfSome result (λ value. value ≤ most) }
{
    if begins_number(text) {
        value_in(least, most, text)
    } else {
        None
    }
}

/// The decimal number from 1 that the text is, if it is not above that one.
pub(super) fn count_in(most: u32, text: &[u8]) -> Option<u32>
    ensures { result ≡ number_in 1 most text.now }
{
    let number = number_in(1, u64::from(most), text)?;
    Some(number as u32)
}

/// Numbers of blocks with commas between them.
pub(super) fn numbers_in(alloc: Global, text: &[u8]) -> Result<Option<Numbers>, NoMemory>
    ensures { IfOk result (λ numbers. numbers ≡ numbers_in (slice_split (λ byte. byte == 44) text.now)) }
{
    let mut numbers = Vec::new(alloc);
    'pieces: for piece in text.split(|byte| *byte == b',') {
        let Some(number) = count_in(u32::MAX, piece) else {
            return Ok(None);
        };
        numbers.push(number)?;
    }
    Ok(Some(Numbers::from_vec(numbers)))
}
