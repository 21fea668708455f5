//! The names that a straight program may declare, and the numbers of its variables.

ghost use Rattle.std.specs.Prelude.{◌≡◌, ◌<◌, ◌^◌, length, map};
ghost use Rattle.std.specs.List.{list_any, list_all};
ghost use Rattle.std.specs.Str.{bytes_eq};
ghost use Rattle.hs_base.specs.Text.{is_word_byte};
ghost use Rattle.hs_tree.specs.Straight.Names.{begins_with_letter, is_identifier, is_name, reserved};
ghost use Rattle.hs_tree.specs.Straight.Fine.{is_taken, is_fine_name};
ghost use Rattle.hs_base.specs.Options.{Seen};
ghost use Rattle.hs_checker.specs.Straight.Reading.{number_of, variable_at};

use crate::straight::marks::first;
use hs_base::{is_letter, is_word_byte};
use hs_tokens::SourceToken;
use hs_tree::straight::Variable;

/// The words that no variable may have as its name.
const RESERVED: [&str; 38] = [
    "auto",
    "break",
    "case",
    "char",
    "const",
    "continue",
    "default",
    "do",
    "double",
    "else",
    "enum",
    "extern",
    "float",
    "for",
    "goto",
    "if",
    "int",
    "long",
    "register",
    "return",
    "short",
    "signed",
    "sizeof",
    "static",
    "struct",
    "switch",
    "typedef",
    "union",
    "unsigned",
    "void",
    "volatile",
    "while",
    "pascal",
    "main",
    "NewHandle",
    "HLock",
    "HUnlock",
    "putchar",
];

/// Whether the first byte is a letter or an underscore.
pub(crate) fn begins_with_letter(text: &[u8]) -> bool
    ensures { result ≡ begins_with_letter text.now }
{
    match text {
        [] => false,
        [byte, ..] => is_letter(*byte),
    }
}

/// Whether all bytes are those of names and numbers.
fn are_word_bytes(text: &[u8]) -> bool
    ensures { result ≡ list_all is_word_byte text.now }
{
    text.iter().all(|byte| is_word_byte(*byte))
}

/// Whether the text is one of the words.
fn is_among(words: &[&str], text: &[u8]) -> bool
    ensures { result ≡ list_any (λ word. bytes_eq word.now text.now) words.now }
{
    words.iter().any(|word| word.as_bytes() == text)
}

/// Whether the text is a reserved word.
#[tactic(auto, unfolding(hs_tree::specs::Straight::Names::reserved))]
fn is_reserved(text: &[u8]) -> bool
    ensures { result ≡ list_any (λ word. bytes_eq word text.now) reserved }
{
    is_among(&RESERVED, text)
}

/// Whether a variable may have that name.
fn is_name(text: &[u8]) -> bool
    ensures { result ≡ is_name text.now }
{
    begins_with_letter(text) && are_word_bytes(text) && !is_reserved(text)
}

/// Whether one of the variables has that name.
fn is_taken(earlier: &[Variable], name: &[u8]) -> bool
    ensures { result ≡ is_taken earlier.now name.now }
{
    earlier.iter().any(|variable| variable.name.items() == name)
}

/// Whether the next variable may have that name.
pub(crate) fn is_fine_name(earlier: &[Variable], name: &[u8]) -> bool
    ensures { result ≡ is_fine_name earlier.now name.now }
{
    is_name(name) && !is_taken(earlier, name)
}

/// The place of the variable of that name.
#[tactic(auto, unfolding(crate::specs::Straight::Reading::number_of))]
fn place_of(variables: &[Variable], name: &[u8]) -> Option<usize>
    ensures { result ≡ number_of variables.now name.now }
{
    variables
        .iter()
        .position(|variable| variable.name.items() == name)
}

/// The number of the variable of that name. The bound keeps it within its type.
#[tactic(auto, using(crate::proofs::Names::number_within))]
pub(crate) fn number_of(variables: &[Variable], name: &[u8]) -> Option<u32>
    requires { length variables.now < 2 ^ 32 }
    ensures { result ≡ number_of variables.now name.now }
{
    let place = place_of(variables, name)?;
    Some(place as u32)
}

/// Reads the name of a variable: its number.
#[tactic(auto, unfolding(crate::specs::Straight::Reading::variable_at))]
pub(crate) fn variable<'a>(
    variables: &[Variable],
    tokens: &'a [SourceToken],
) -> Option<(u32, &'a [SourceToken])>
    requires { length variables.now < 2 ^ 32 }
    ensures { Seen (λ x. (x.0, x.1.now)) result (variable_at variables.now tokens.now) }
{
    let (token, rest) = first(tokens)?;
    let number = number_of(variables, token.text.items())?;
    Some((number, rest))
}
