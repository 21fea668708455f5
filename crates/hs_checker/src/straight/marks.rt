//! Reads tokens of given texts.

ghost use Rattle.std.specs.Prelude.{◌≡◌, map};
ghost use Rattle.hs_base.specs.Options.{Seen};
ghost use Rattle.hs_checker.specs.Straight.Reading.{first_at, mark_at, marks_at, is_at};

use hs_base::Pos;
use hs_tokens::{SourceToken, Token};

/// The first token, and the tokens after it.
pub(crate) fn first(tokens: &[SourceToken]) -> Option<(&Token, &[SourceToken])>
    ensures { Seen (λ x. (x.0.now, x.1.now)) result (first_at tokens.now) }
{
    let (source, rest) = tokens.split_first()?;
    Some((&source.token, rest))
}

/// Reads one token with that text. Its place, and the tokens after it.
#[tactic(auto, unfolding(crate::specs::Straight::Reading::mark_at))]
pub(crate) fn mark<'a>(text: &[u8], tokens: &'a [SourceToken]) -> Option<(Pos, &'a [SourceToken])>
    ensures { Seen (λ x. (x.0, x.1.now)) result (mark_at text.now tokens.now) }
{
    let (token, rest) = first(tokens)?;
    if token.text.items() == text {
        Some((token.pos, rest))
    } else {
        None
    }
}

/// Whether the first token has that text.
#[tactic(auto, unfolding(crate::specs::Straight::Reading::is_at))]
pub(crate) fn is_at(text: &[u8], tokens: &[SourceToken]) -> bool
    ensures { result ≡ is_at text.now tokens.now }
{
    mark(text, tokens).is_some()
}

/// Reads tokens with these texts. The tokens after them.
#[tactic(auto, unfolding(crate::specs::Straight::Reading::marks_at))]
pub(crate) fn marks<'a>(texts: &[&str], tokens: &'a [SourceToken]) -> Option<&'a [SourceToken]>
    ensures { Seen (λ x. x.now) result (marks_at (map (λ text. text.now) texts.now) tokens.now) }
{
    let mut rest = tokens;
    for text in texts {
        (_, rest) = mark(text.as_bytes(), rest)?;
    }
    Some(rest)
}
