//! Runs of text, with their macros replaced.

ghost use Rattle.std.specs.Prelude.{◌≡◌};
ghost use Rattle.hs_directives.specs.Directives.{with_tokens, text_done};
ghost use Rattle.hs_directives.specs.Outcomes.{Gives};

use crate::condition::of_replacement;
use crate::error::ReadError;
use crate::state::State;
use hs_base::LimitKind;
use hs_macros::Budget;
use hs_tokens::{SourceToken, Token};

/// Puts the tokens of a run after those of the unit, which takes them from what is left.
fn with_tokens(state: &mut State, left: Budget, tokens: Vec<SourceToken>) -> Result<(), ReadError>
    ensures gives { Gives (λ _. state.new) (with_tokens state.old (record { tokens = tokens.items; left = left })) result }
    ensures files_stay { state.new.progress.files ≡ state.old.progress.files }
{
    let count = tokens.len() as u64;
    if left.tokens < count {
        return Err(ReadError::Limit(LimitKind::Tokens.passed()));
    }
    state.unit.tokens.append(tokens)?;
    state.progress.left = Budget {
        replacements: left.replacements,
        tokens: left.tokens - count,
    };
    Ok(())
}

/// Replaces a run of text that is kept (X3.159-1989 3.8.3).
pub(crate) fn text_done(tokens: &[Token], state: &mut State) -> Result<(), ReadError>
    ensures gives { Gives (λ _. state.new) (text_done tokens.now state.old) result }
    ensures files_stay { state.new.progress.files ≡ state.old.progress.files }
{
    let mut left = state.progress.left;
    match state.unit.macros.expand(tokens, &mut left) {
        Ok(replaced) => with_tokens(state, left, replaced),
        Err(error) => Err(of_replacement(error)),
    }
}
