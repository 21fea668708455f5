//! Whether a given word is the first token.

ghost use Rattle.std.specs.Prelude.{◌≡◌, suc, length, IfSome, IfOk};
ghost use Rattle.hs_base.specs.Options.{Seen};
ghost use Rattle.hs_expr_parser.specs.Given.{Gives};
ghost use Rattle.hs_decl_parser.specs.Words.{keyword_at};

use hs_expr_parser::{ParseEnd, first, is_keyword, place_of};
use hs_tokens::{Place, SourceToken};

/// The place of the first token, if it is that word, and the others (X3.159-1989 3.1.1).
pub(crate) fn keyword_ahead<'a>(
    tokens: &'a [SourceToken],
    word: &[u8],
) -> Option<(Place, &'a [SourceToken])>
    ensures read { Seen (λ x. (x.0, x.1.now)) result (keyword_at word.now tokens.now) }
    ensures shorter { IfSome result (λ x. suc (length x.1.now) ≡ length tokens.now) }
{
    let (source, rest) = first(tokens)?;
    if is_keyword(source, word) {
        Some((place_of(source), rest))
    } else {
        None
    }
}

/// The place of the first token, which must be that word, and the others.
pub(crate) fn keyword<'a>(
    tokens: &'a [SourceToken],
    word: &[u8],
) -> Result<(Place, &'a [SourceToken]), ParseEnd>
    ensures read { Gives (λ x. (x.0, x.1.now)) result (keyword_at word.now tokens.now) }
    ensures shorter { IfOk result (λ x. suc (length x.1.now) ≡ length tokens.now) }
{
    match keyword_ahead(tokens, word) {
        Some(it) => Ok(it),
        None => Err(ParseEnd::NotExpr),
    }
}
