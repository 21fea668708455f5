//! Spells single tokens.

ghost use Rattle.std.specs.Prelude.{◌≡◌, ◌∷◌, []};
ghost use Rattle.hs_spell.specs.Appends.{Appends};
ghost use Rattle.hs_syntax.specs.Forms.{token, mark, mark_at, keyword, keyword_at, word};
ghost use Rattle.hs_syntax.specs.Parts.{identifier, literals, pointers_form, tag_form, comma_form};

use hs_base::{NoMemory, Pos};
use hs_syntax::{Pointer, Word};
use hs_tokens::{Origin, Place, Text, Token, TokenKind};
use std::alloc::Global;

/// No place in any file.
const NOWHERE: Place = Place {
    pos: Pos {
        file: 0,
        line: 0,
        col: 0,
    },
    origin: Origin::Plain,
};

/// Appends a token, with white space before it.
fn token(
    alloc: Global,
    tokens: &mut Vec<Token>,
    kind: TokenKind,
    text: &[u8],
    place: Option<Place>,
) -> Result<(), NoMemory>
    ensures { Appends result tokens.old.items tokens.new.items (token kind text.now place) }
{
    tokens.push(Token {
        kind,
        text: Text::from_vec(alloc, text.to_vec(alloc)?)?,
        pos: place.unwrap_or(NOWHERE).pos,
        first: false,
        spaced: true,
    })?;
    Ok(())
}

/// Appends a punctuator.
pub(crate) fn mark(alloc: Global, tokens: &mut Vec<Token>, text: &str) -> Result<(), NoMemory>
    ensures { Appends result tokens.old.items tokens.new.items (mark text.now) }
{
    token(alloc, tokens, TokenKind::Punctuator, text.as_bytes(), None)
}

/// Appends a punctuator that has a place.
pub(crate) fn mark_at(
    alloc: Global,
    tokens: &mut Vec<Token>,
    place: Place,
    text: &str,
) -> Result<(), NoMemory>
    ensures { Appends result tokens.old.items tokens.new.items (mark_at place text.now) }
{
    token(
        alloc,
        tokens,
        TokenKind::Punctuator,
        text.as_bytes(),
        Some(place),
    )
}

/// Appends a keyword.
pub(crate) fn keyword(alloc: Global, tokens: &mut Vec<Token>, text: &str) -> Result<(), NoMemory>
    ensures { Appends result tokens.old.items tokens.new.items (keyword text.now) }
{
    token(alloc, tokens, TokenKind::Identifier, text.as_bytes(), None)
}

/// Appends a keyword that has a place.
pub(crate) fn keyword_at(
    alloc: Global,
    tokens: &mut Vec<Token>,
    place: Place,
    text: &str,
) -> Result<(), NoMemory>
    ensures { Appends result tokens.old.items tokens.new.items (keyword_at place text.now) }
{
    token(
        alloc,
        tokens,
        TokenKind::Identifier,
        text.as_bytes(),
        Some(place),
    )
}

/// Appends an identifier or a constant.
pub(crate) fn word(
    alloc: Global,
    tokens: &mut Vec<Token>,
    kind: TokenKind,
    it: &Word,
) -> Result<(), NoMemory>
    ensures { Appends result tokens.old.items tokens.new.items (word kind it.now) }
{
    token(alloc, tokens, kind, it.text.items(), Some(it.place))
}

/// Appends an identifier.
pub(crate) fn identifier(alloc: Global, tokens: &mut Vec<Token>, it: &Word) -> Result<(), NoMemory>
    ensures { Appends result tokens.old.items tokens.new.items (identifier it.now) }
{
    word(alloc, tokens, TokenKind::Identifier, it)
}

/// Appends string literals.
pub(crate) fn literals(
    alloc: Global,
    tokens: &mut Vec<Token>,
    words: &[Word],
) -> Result<(), NoMemory>
    ensures { Appends result tokens.old.items tokens.new.items (literals words.now) }
{
    for literal in words {
        word(alloc, tokens, TokenKind::Literal, literal)?;
    }
    Ok(())
}

/// Appends a pointer or a word that means nothing.
fn pointer(alloc: Global, tokens: &mut Vec<Token>, it: Pointer) -> Result<(), NoMemory>
    ensures { Appends result tokens.old.items tokens.new.items (pointers_form (it ∷ [])) }
{
    match it {
        Pointer::Star(at) => mark_at(alloc, tokens, at, "*"),
        Pointer::Dropped(word, at) => keyword_at(alloc, tokens, at, word.text()),
    }
}

/// Appends what stands in front of a declarator.
pub(crate) fn pointers(
    alloc: Global,
    tokens: &mut Vec<Token>,
    its: &[Pointer],
) -> Result<(), NoMemory>
    ensures { Appends result tokens.old.items tokens.new.items (pointers_form its.now) }
{
    for it in its {
        pointer(alloc, tokens, *it)?;
    }
    Ok(())
}

/// Appends the tag of a struct or an enumeration.
pub(crate) fn tag(alloc: Global, tokens: &mut Vec<Token>, it: &Option<Word>) -> Result<(), NoMemory>
    ensures { Appends result tokens.old.items tokens.new.items (tag_form it.now) }
{
    match it {
        None => Ok(()),
        Some(word) => identifier(alloc, tokens, word),
    }
}

/// Appends a comma if one stands.
pub(crate) fn comma(alloc: Global, tokens: &mut Vec<Token>, stands: bool) -> Result<(), NoMemory>
    ensures { Appends result tokens.old.items tokens.new.items (comma_form stands) }
{
    if stands {
        mark(alloc, tokens, ",")?;
    }
    Ok(())
}
