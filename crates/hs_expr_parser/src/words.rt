//! Keywords, and the words that begin a specifier.

ghost use Rattle.std.specs.Prelude.{◌≡◌};
ghost use Rattle.std.specs.List.{list_any};
ghost use Rattle.std.specs.Str.{bytes_eq};
ghost use Rattle.hs_syntax.specs.Names.{keywords, is_among, is_name, is_type_name};
ghost use Rattle.hs_syntax.specs.Phrases.{specifier_words};
ghost use Rattle.hs_expr_parser.specs.Ahead.{begins_specifier};

use crate::TypeNames;
use hs_tokens::{SourceToken, is_identifier};

/// The words that are no identifiers.
const KEYWORDS: [&str; 33] = [
    "auto", "break", "case", "char", "const", "continue", "default", "do", "double", "else",
    "enum", "extern", "float", "for", "goto", "if", "int", "long", "register", "return", "short",
    "signed", "sizeof", "static", "struct", "switch", "typedef", "union", "unsigned", "void",
    "volatile", "while", "pascal",
];

/// The words that begin a specifier.
const SPECIFIER_WORDS: [&str; 17] = [
    "typedef", "extern", "static", "auto", "register", "const", "volatile", "pascal", "void",
    "char", "short", "int", "long", "signed", "unsigned", "struct", "enum",
];

/// Whether the text is one of the words.
fn is_one_of(words: &[&str], text: &[u8]) -> bool
    ensures { result ≡ list_any (λ word. bytes_eq word.now text.now) words.now }
{
    words.iter().any(|word| word.as_bytes() == text)
}

/// Whether the text is a keyword (X3.159-1989 3.1.1), or `pascal`.
#[tactic(auto, unfolding(hs_syntax::specs::Names::keywords))]
fn is_reserved(text: &[u8]) -> bool
    ensures { result ≡ is_among keywords text.now }
{
    is_one_of(&KEYWORDS, text)
}

/// Whether the text is a word that begins a specifier (X3.159-1989 3.5.1 to 3.5.3).
#[tactic(auto, unfolding(hs_syntax::specs::Phrases::specifier_words))]
fn is_specifier_word(text: &[u8]) -> bool
    ensures { result ≡ is_among specifier_words text.now }
{
    is_one_of(&SPECIFIER_WORDS, text)
}

/// Whether the text of an identifier token is an identifier, and no keyword (X3.159-1989 3.1.2).
pub(crate) fn is_name(text: &[u8]) -> bool
    ensures { result ≡ is_name text.now }
{
    !is_reserved(text)
}

/// Whether the text is a typedef name (X3.159-1989 3.5.6).
pub(crate) fn is_type_name(known: &TypeNames, text: &[u8]) -> bool
    ensures { result ≡ is_type_name known.now text.now }
{
    is_name(text) && known.is_known(text)
}

/// Whether the token begins a specifier, with a type specifier before it or without (X3.159-1989 3.5).
pub(crate) fn begins_specifier(known: &TypeNames, typed: bool, source: &SourceToken) -> bool
    ensures { result ≡ begins_specifier known.now typed source.now }
{
    let text = source.token.text.items();
    is_identifier(&source.token)
        && (is_specifier_word(text) || (!typed && is_type_name(known, text)))
}
