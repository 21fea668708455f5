//! Which tokens count for the nesting.

ghost use Rattle.std.specs.Prelude.{◌≡◌};
ghost use Rattle.hs_syntax.specs.Counts.{meanings};
ghost use Rattle.hs_syntax.specs.Nesting.{is_word, is_punctuator, opens, closes, is_deepening_word, is_neutral, punctuator_deepener, deepener_of};

use hs_tokens::{SourceToken, TokenKind, is_identifier, is_mark, is_same_kind};

/// What counts for the nesting.
#[derive(Clone, Copy)]
pub(crate) enum Deepener {
    Do,
    /// Another keyword.
    Keyword,
    Query,
    /// Another punctuator.
    Other,
}

/// Whether the token has this word.
pub(crate) fn is_word(word: &[u8], source: &SourceToken) -> bool
    ensures { result ≡ is_word word.now source.now }
{
    is_identifier(&source.token) && source.token.text.items() == word
}

/// Whether the token is this punctuator.
pub(crate) fn is_punctuator(mark: &[u8], source: &SourceToken) -> bool
    ensures { result ≡ is_punctuator mark.now source.now }
{
    is_mark(mark, &source.token)
}

/// Whether the token is an opening bracket.
pub(crate) fn opens(source: &SourceToken) -> bool
    ensures { result ≡ opens source.now }
{
    is_punctuator(b"(", source) || is_punctuator(b"[", source) || is_punctuator(b"{", source)
}

/// Whether the token is a closing bracket.
pub(crate) fn closes(source: &SourceToken) -> bool
    ensures { result ≡ closes source.now }
{
    is_punctuator(b")", source) || is_punctuator(b"]", source) || is_punctuator(b"}", source)
}

/// Whether the token is a keyword that is a deepener, but for `do`.
fn is_deepening_word(source: &SourceToken) -> bool
    ensures { result ≡ is_deepening_word source.now }
{
    is_word(b"if", source)
        || is_word(b"while", source)
        || is_word(b"for", source)
        || is_word(b"switch", source)
        || is_word(b"sizeof", source)
}

/// Whether the token is a punctuator that is no deepener.
fn is_neutral(source: &SourceToken) -> bool
    ensures { result ≡ is_neutral source.now }
{
    is_punctuator(b",", source)
        || is_punctuator(b";", source)
        || is_punctuator(b":", source)
        || closes(source)
}

/// The deepener of a punctuator.
fn punctuator_deepener(source: &SourceToken) -> Option<Deepener>
    ensures { meanings result ≡ punctuator_deepener source.now }
{
    if is_neutral(source) {
        None
    } else if is_punctuator(b"?", source) {
        Some(Deepener::Query)
    } else {
        Some(Deepener::Other)
    }
}

/// The deepener that the token is.
pub(crate) fn deepener_of(source: &SourceToken) -> Option<Deepener>
    ensures { meanings result ≡ deepener_of source.now }
{
    if is_word(b"do", source) {
        Some(Deepener::Do)
    } else if is_deepening_word(source) {
        Some(Deepener::Keyword)
    } else if is_same_kind(source.token.kind, TokenKind::Punctuator) {
        punctuator_deepener(source)
    } else {
        None
    }
}
