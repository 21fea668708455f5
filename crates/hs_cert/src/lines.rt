//! Reads words, numbers and the line of an edge from the front of a certificate's text.

ghost use Rattle.std.specs.Prelude.{◌≡◌, ◌<◌, ◌≤◌, ◌+◌, ◌-◌, ◌*◌, min};
ghost use Rattle.hs_base.specs.Options.{Seen};
ghost use Rattle.hs_cert.specs.Reading.{after, line_at, number_at, signed_at};

use hs_base::is_digit;

/// What the size of an amount is cut to: one more than it may be.
const MOST_SIZE: u64 = 2_147_483_648;

/// The line of an edge, and the text after it.
#[derive(Clone, Copy)]
pub(crate) struct Line<'a> {
    pub(crate) edge: u64,
    pub(crate) amount: i64,
    pub(crate) rest: &'a [u8],
}

/// What follows the word, if the text begins with it.
pub(crate) fn after<'a>(word: &[u8], text: &'a [u8]) -> Option<&'a [u8]>
    ensures { Seen (λ rest. rest.now) result (after word.now text.now) }
{
    text.strip_prefix(word)
}

/// The number with one more digit, cut to the most.
fn with_digit(most: u64, value: u64, digit: u8) -> u64
    requires { 47 < digit }
    ensures { result ≡ min (value * 10 + (digit - 48)) most }
{
    value
        .saturating_mul(10)
        .saturating_add(u64::from(digit - b'0'))
        .min(most)
}

/// The number that stands in front, cut to the most, and the text after it.
pub(crate) fn number(most: u64, text: &[u8]) -> (u64, &[u8])
    ensures value { (result.0, result.1.now) ≡ number_at most 0 text.now }
    ensures low { result.0 ≤ most }
{
    let mut value = 0;
    let mut rest = text;
    'digits: while let Some((byte, behind)) = rest.split_first() {
        if !is_digit(*byte) {
            break;
        }
        value = with_digit(most, value, *byte);
        rest = behind;
    }
    (value, rest)
}

/// The number with a sign that stands in front, and the text after it.
fn signed(text: &[u8]) -> (i64, &[u8])
    ensures { (result.0, result.1.now) ≡ signed_at text.now }
{
    if let Some(digits) = after(b"-", text) {
        let (size, rest) = number(MOST_SIZE, digits);
        (-(size as i64), rest)
    } else {
        let (size, rest) = number(MOST_SIZE, text);
        (size as i64, rest)
    }
}

/// The line of an edge, if one stands in front.
#[tactic(auto, unfolding(crate::specs::Reading::line_at))]
pub(crate) fn read_line(text: &[u8]) -> Option<Line<'_>>
    ensures { Seen (λ line. (line.edge, line.amount, line.rest.now)) result (line_at text.now) }
{
    let (edge, behind) = number(u64::MAX, after(b"flow ", text)?);
    let (amount, behind) = signed(after(b" ", behind)?);
    let rest = after(b"\n", behind)?;
    Some(Line { edge, amount, rest })
}
