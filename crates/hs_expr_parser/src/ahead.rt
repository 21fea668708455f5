//! What the first tokens of a phrase tell.

ghost use Rattle.std.specs.Prelude.{◌≡◌, ◌≤◌, ◌∷◌, false, suc, length, [], IfNone, IfSome, IfOk};
ghost use Rattle.hs_expr_parser.specs.Ahead.{place_of, word_of, is_punctuator, is_keyword, is_ahead, is_mark_ahead, mark_at, name_at, is_literal, literals_at, begins_specifier, begins_type};
ghost use Rattle.hs_base.specs.Options.{Seen};
ghost use Rattle.hs_expr_parser.specs.Given.{Gives};
ghost use Rattle.hs_expr_parser.specs.Reading.{begins_list, void_alone, tag_at, pointer_of, pointers_at};

use crate::operators::dropped_of;
use crate::words::{begins_specifier, is_name};
use crate::{ParseEnd, TypeNames};
use hs_base::NoMemory;
use hs_constants::has_string_value;
use hs_syntax::{Pointer, Word};
use hs_tokens::{Place, SourceToken, TokenKind, is_identifier, is_mark, is_same_kind};
use std::alloc::Global;

/// The place of a token.
pub fn place_of(source: &SourceToken) -> Place
    ensures { result ≡ place_of source.now }
{
    Place {
        pos: source.token.pos,
        origin: source.origin,
    }
}

/// The token as a word, which shares its text.
pub(crate) fn word_of(source: &SourceToken) -> Result<Word, NoMemory>
    ensures { IfOk result (λ it. it ≡ word_of source.now) }
{
    Ok(Word {
        text: source.token.text.copied()?,
        place: place_of(source),
    })
}

/// Whether the token is that word (X3.159-1989 3.1.1).
pub fn is_keyword(source: &SourceToken, word: &[u8]) -> bool
    ensures { result ≡ is_keyword word.now source.now }
{
    is_identifier(&source.token) && source.token.text.items() == word
}

/// Whether the token is that punctuator (X3.159-1989 3.1.5, 3.1.6).
pub fn is_punctuator(source: &SourceToken, mark: &[u8]) -> bool
    ensures { result ≡ is_punctuator mark.now source.now }
{
    is_mark(mark, &source.token)
}

/// The first token, and the others.
pub fn first(tokens: &[SourceToken]) -> Option<(&SourceToken, &[SourceToken])>
    ensures none { IfNone result (tokens.now ≡ []) }
    ensures found { IfSome result (λ x. tokens.now ≡ x.0.now ∷ x.1.now) }
{
    tokens.split_first()
}

/// Whether the first token is that punctuator.
///
/// Example: for the mark `;`, true for `; x` and false for `x ;`.
pub fn is_mark_ahead(tokens: &[SourceToken], mark: &[u8]) -> bool
    ensures { result ≡ is_mark_ahead mark.now tokens.now }
{
    match first(tokens) {
        Some((source, _)) => is_punctuator(source, mark),
        None => false,
    }
}

/// Whether the first token begins a specifier (X3.159-1989 3.5).
///
/// Example: `int` and `const` do, and `T` does if it is a typedef name.
pub fn begins_specifiers(known: &TypeNames, tokens: &[SourceToken]) -> bool
    ensures { result ≡ is_ahead (begins_specifier known.now false) tokens.now }
{
    match first(tokens) {
        Some((source, _)) => begins_specifier(known, false, source),
        None => false,
    }
}

/// Whether a type name in parentheses stands there (X3.159-1989 3.3.4, 3.5.5).
pub(crate) fn begins_type(known: &TypeNames, tokens: &[SourceToken]) -> bool
    ensures { result ≡ begins_type known.now tokens.now }
{
    match first(tokens) {
        Some((source, rest)) => is_punctuator(source, b"(") && begins_specifiers(known, rest),
        None => false,
    }
}

/// Whether a list of parameters stands there, after a `(` (X3.159-1989 3.5.4.3).
pub(crate) fn begins_list(known: &TypeNames, tokens: &[SourceToken]) -> bool
    ensures { result ≡ begins_list known.now tokens.now }
{
    is_mark_ahead(tokens, b")") || begins_specifiers(known, tokens)
}

/// The place of the first token, if it is that punctuator, and the others.
pub fn mark_ahead<'a>(tokens: &'a [SourceToken], mark: &[u8]) -> Option<(Place, &'a [SourceToken])>
    ensures read { Seen (λ x. (x.0, x.1.now)) result (mark_at mark.now tokens.now) }
    ensures shorter { IfSome result (λ x. suc (length x.1.now) ≡ length tokens.now) }
{
    let (source, rest) = first(tokens)?;
    if is_punctuator(source, mark) {
        Some((place_of(source), rest))
    } else {
        None
    }
}

/// The place of the first token, which must be that punctuator, and the others.
pub fn mark<'a>(
    tokens: &'a [SourceToken],
    mark: &[u8],
) -> Result<(Place, &'a [SourceToken]), ParseEnd>
    ensures read { Gives (λ x. (x.0, x.1.now)) result (mark_at mark.now tokens.now) }
    ensures shorter { IfOk result (λ x. suc (length x.1.now) ≡ length tokens.now) }
{
    match mark_ahead(tokens, mark) {
        Some(it) => Ok(it),
        None => Err(ParseEnd::NotExpr),
    }
}

/// The identifier that the first token is, and the others (X3.159-1989 3.1.2).
pub(crate) fn name(tokens: &[SourceToken]) -> Result<(Word, &[SourceToken]), ParseEnd>
    ensures read { Gives (λ x. (x.0, x.1.now)) result (name_at tokens.now) }
    ensures shorter { IfOk result (λ x. suc (length x.1.now) ≡ length tokens.now) }
{
    let Some((source, rest)) = first(tokens) else {
        return Err(ParseEnd::NotExpr);
    };
    if is_identifier(&source.token) && is_name(source.token.text.items()) {
        Ok((word_of(source)?, rest))
    } else {
        Err(ParseEnd::NotExpr)
    }
}

/// Whether the token is a string literal that has a value (X3.159-1989 3.1.4).
fn is_literal(source: &SourceToken) -> bool
    ensures { result ≡ is_literal source.now }
{
    is_same_kind(source.token.kind, TokenKind::Literal)
        && has_string_value(source.token.text.items())
}

/// The string literals in front, and the tokens after them (X3.159-1989 2.1.1.2 phase 6). A literal without a value ends
/// them.
pub(crate) fn literals<'a>(
    alloc: Global,
    tokens: &'a [SourceToken],
) -> Result<(Vec<Word>, &'a [SourceToken]), NoMemory>
    ensures read { IfOk result (λ x. (x.0.items ≡ (literals_at tokens.now).0) × (x.1.now ≡ (literals_at tokens.now).1)) }
    ensures shorter { IfOk result (λ x. length x.1.now ≤ length tokens.now) }
{
    let mut literals = Vec::new(alloc);
    let mut rest = tokens;
    'literals: while let Some((source, others)) = first(rest) {
        if !is_literal(source) {
            return Ok((literals, rest));
        }
        literals.push(word_of(source)?)?;
        rest = others;
    }
    Ok((literals, rest))
}

/// A tag, if one stands there, and the tokens after it (X3.159-1989 3.5.2.3).
pub(crate) fn tag(tokens: &[SourceToken]) -> Result<(Option<Word>, &[SourceToken]), NoMemory>
    ensures read { IfOk result (λ x. (x.0 ≡ (tag_at tokens.now).0) × (x.1.now ≡ (tag_at tokens.now).1)) }
    ensures shorter { IfOk result (λ x. length x.1.now ≤ length tokens.now) }
{
    match name(tokens) {
        Ok((word, rest)) => Ok((Some(word), rest)),
        Err(ParseEnd::NotExpr) => Ok((None, tokens)),
        Err(ParseEnd::NoMemory) => Err(NoMemory),
    }
}

/// The pointer that the token is: `*`, or a word that means nothing (X3.159-1989 3.5.4.1).
fn pointer_of(source: &SourceToken) -> Option<Pointer>
    ensures { result ≡ pointer_of source.now }
{
    if is_punctuator(source, b"*") {
        return Some(Pointer::Star(place_of(source)));
    }
    match dropped_of(source) {
        Some(word) => Some(Pointer::Dropped(word, place_of(source))),
        None => None,
    }
}

/// The pointers in front, and the tokens after them (X3.159-1989 3.5.4.1).
pub(crate) fn pointers<'a>(
    alloc: Global,
    tokens: &'a [SourceToken],
) -> Result<(Vec<Pointer>, &'a [SourceToken]), NoMemory>
    ensures read { IfOk result (λ x. (x.0.items ≡ (pointers_at tokens.now).0) × (x.1.now ≡ (pointers_at tokens.now).1)) }
    ensures shorter { IfOk result (λ x. length x.1.now ≤ length tokens.now) }
{
    let mut pointers = Vec::new(alloc);
    let mut rest = tokens;
    'pointers: while let Some((source, others)) = first(rest) {
        let Some(pointer) = pointer_of(source) else {
            return Ok((pointers, rest));
        };
        pointers.push(pointer)?;
        rest = others;
    }
    Ok((pointers, rest))
}

/// The place of a `void` that a `)` follows, and the tokens after both (X3.159-1989 3.5.4.3).
pub(crate) fn void_alone<'a>(tokens: &'a [SourceToken]) -> Option<(Place, &'a [SourceToken])>
    ensures read { Seen (λ x. (x.0, x.1.now)) result (void_alone tokens.now) }
    ensures shorter { IfSome result (λ x. suc (suc (length x.1.now)) ≡ length tokens.now) }
{
    let (source, rest) = first(tokens)?;
    if !is_keyword(source, b"void") {
        return None;
    }
    let (_, behind) = mark_ahead(rest, b")")?;
    Some((place_of(source), behind))
}

/// What was read, or nothing if no expression starts there.
pub(crate) fn found<T: Drop>(read: Result<T, ParseEnd>) -> Result<Option<T>, ParseEnd>
    ensures there { IfOk read (λ it. result ≡ Ok (Some it)) }
    ensures nothing { read ≡ Err ParseEnd.NotExpr → result ≡ Ok None }
    ensures refused { read ≡ Err ParseEnd.NoMemory → result ≡ Err ParseEnd.NoMemory }
{
    match read {
        Ok(it) => Ok(Some(it)),
        Err(ParseEnd::NotExpr) => Ok(None),
        Err(ParseEnd::NoMemory) => Err(ParseEnd::NoMemory),
    }
}
