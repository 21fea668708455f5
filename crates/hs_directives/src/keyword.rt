//! The keywords of directives.

ghost use Rattle.std.specs.Prelude.{◌≡◌};
ghost use Rattle.hs_directives.specs.Pieces.{keyword, keyword_of};

use hs_tokens::{Token, is_identifier};

/// What a directive calls for (X3.159-1989 3.8).
#[derive(Clone, Copy)]
pub(crate) enum Keyword {
    If,
    Ifdef,
    Ifndef,
    Elif,
    Else,
    Endif,
    Include,
    Define,
    Undef,
    /// `#line`, `#pragma` and the null directive.
    Dropped,
    /// `#error`, and whatever has no form.
    Bad,
}

/// What the word calls for.
fn named(name: &[u8]) -> Keyword
    ensures { result ≡ keyword name.now }
{
    if name == b"if".as_slice() {
        Keyword::If
    } else if name == b"ifdef".as_slice() {
        Keyword::Ifdef
    } else if name == b"ifndef".as_slice() {
        Keyword::Ifndef
    } else if name == b"elif".as_slice() {
        Keyword::Elif
    } else if name == b"else".as_slice() {
        Keyword::Else
    } else if name == b"endif".as_slice() {
        Keyword::Endif
    } else if name == b"include".as_slice() {
        Keyword::Include
    } else if name == b"define".as_slice() {
        Keyword::Define
    } else if name == b"undef".as_slice() {
        Keyword::Undef
    } else if name == b"line".as_slice() || name == b"pragma".as_slice() {
        Keyword::Dropped
    } else {
        Keyword::Bad
    }
}

/// What the tokens after a `#` call for.
pub(crate) fn keyword_of(line: &[Token]) -> Keyword
    ensures { result ≡ keyword_of line.now }
{
    match line.first() {
        None => Keyword::Dropped,
        Some(name) if is_identifier(name) => named(name.text.items()),
        Some(_) => Keyword::Bad,
    }
}
