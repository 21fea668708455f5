//! The numbers of a straight program.

ghost use Rattle.std.specs.Prelude.{◌≡◌, ◌≤◌, IfSome};
ghost use Rattle.std.specs.List.{list_all};
ghost use Rattle.hs_base.specs.Text.{is_digit};
ghost use Rattle.hs_base.specs.Options.{Seen};
ghost use Rattle.hs_checker.specs.Straight.Reading.{is_numeral, numeral, number_at};

use crate::straight::marks::first;
use hs_base::is_digit;
use hs_tokens::SourceToken;

/// Whether all bytes are digits.
fn are_digits(text: &[u8]) -> bool
    ensures { result ≡ list_all is_digit text.now }
{
    text.iter().all(|byte| is_digit(*byte))
}

/// Whether the text is of the one form that a number has.
fn is_numeral(text: &[u8]) -> bool
    ensures { result ≡ is_numeral text.now }
{
    match text {
        [] => false,
        [_] => are_digits(text),
        [byte, ..] => are_digits(text) && *byte != b'0',
    }
}

/// The number, at most `most`, that is written so.
#[tactic(auto, unfolding(crate::specs::Straight::Reading::numeral))]
pub(crate) fn numeral(most: u32, text: &[u8]) -> Option<u32>
    requires { most ≤ 32767 }
    ensures value { result ≡ numeral most text.now }
    ensures low { IfSome result (λ number. number ≤ most) }
{
    if !is_numeral(text) {
        return None;
    }
    let mut value = 0u32;
    for digit in text {
        value = value * 10 + u32::from(*digit - b'0');
        if value > most {
            return None;
        }
    }
    Some(value)
}

/// Reads a number, at most `most`.
#[tactic(auto, unfolding(crate::specs::Straight::Reading::number_at))]
pub(crate) fn number(most: u32, tokens: &[SourceToken]) -> Option<(u32, &[SourceToken])>
    requires { most ≤ 32767 }
    ensures value { Seen (λ x. (x.0, x.1.now)) result (number_at most tokens.now) }
    ensures low { IfSome result (λ x. x.0 ≤ most) }
{
    let (token, rest) = first(tokens)?;
    let number = numeral(most, token.text.items())?;
    Some((number, rest))
}
