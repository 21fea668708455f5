//! The number words of a command line.

ghost use Rattle.std.specs.Prelude.{◌≡◌};
ghost use Rattle.std.specs.Char.{is_digit};
ghost use Rattle.std.specs.List.{list_all};
ghost use Rattle.hs_words.specs.Words.{is_number, mover_of, number_of, small};

/// Whether each byte is a decimal digit.
fn are_digits(text: &[u8]) -> bool
    ensures { result ≡ list_all (λ byte. is_digit byte 10) text.now }
{
    text.iter().all(|byte| char::from(*byte).is_digit(10))
}

/// Whether the text is one to ten decimal digits.
fn is_number(text: &[u8]) -> bool
    ensures { result ≡ is_number text.now }
{
    let count = text.len();
    1 <= count && count <= 10 && are_digits(text)
}

/// The number that one to ten decimal digits are. Leading zeros count as digits.
///
/// Example: 7 for `007`, and none for `+7`, for the empty text and for eleven digits.
pub(crate) fn number(text: &str) -> Option<u64>
    ensures { result ≡ number_of text.now }
{
    if is_number(text.as_bytes()) {
        u64::from_str_radix(text, 10).ok()
    } else {
        None
    }
}

/// A number that is at most 255.
fn small(number: Option<u64>) -> Option<u8>
    ensures { result ≡ small number }
{
    match number {
        Some(number) if number <= 255 => Some(number as u8),
        _ => None,
    }
}

/// The number of the mover that a word names: `still`, `slide`, `script` or `seeded`, or a number up to 255.
pub(crate) fn mover(word: &str) -> Option<u8>
    ensures { result ≡ mover_of word.now }
{
    if word == "still" {
        Some(0)
    } else if word == "slide" {
        Some(1)
    } else if word == "script" {
        Some(2)
    } else if word == "seeded" {
        Some(3)
    } else {
        small(number(word))
    }
}
