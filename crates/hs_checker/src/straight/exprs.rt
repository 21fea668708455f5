//! Reads values: a letter, a load through a pointer, or a number.

ghost use Rattle.std.specs.Prelude.{◌≡◌, ◌<◌, ◌^◌, length};
ghost use Rattle.hs_base.specs.Options.{Seen};
ghost use Rattle.hs_checker.specs.Straight.Reading.{word_value, word_at, load_at, expr_at};

use crate::straight::marks::{first, is_at, mark};
use crate::straight::names::{begins_with_letter, number_of, variable};
use crate::straight::numbers::numeral;
use hs_tokens::{SourceToken, Token};
use hs_tree::straight::{Expr, Variable};

/// The value that one token stands for.
#[tactic(auto, unfolding(crate::specs::Straight::Reading::word_value))]
fn word_value(variables: &[Variable], token: &Token) -> Option<Expr>
    requires { length variables.now < 2 ^ 32 }
    ensures { result ≡ word_value variables.now token.now }
{
    let text = token.text.items();
    if begins_with_letter(text) {
        let letter = number_of(variables, text)?;
        Some(Expr::Letter {
            pos: token.pos,
            letter,
        })
    } else {
        let value = numeral(127, text)?;
        Some(Expr::Number { value: value as u8 })
    }
}

/// Reads a name or a number.
#[tactic(auto, unfolding(crate::specs::Straight::Reading::word_at))]
fn word<'a>(variables: &[Variable], tokens: &'a [SourceToken]) -> Option<(Expr, &'a [SourceToken])>
    requires { length variables.now < 2 ^ 32 }
    ensures { Seen (λ x. (x.0, x.1.now)) result (word_at variables.now tokens.now) }
{
    let (token, rest) = first(tokens)?;
    let value = word_value(variables, token)?;
    Some((value, rest))
}

/// Reads what a pointer points to.
#[tactic(auto, unfolding(crate::specs::Straight::Reading::load_at))]
fn load<'a>(variables: &[Variable], tokens: &'a [SourceToken]) -> Option<(Expr, &'a [SourceToken])>
    requires { length variables.now < 2 ^ 32 }
    ensures { Seen (λ x. (x.0, x.1.now)) result (load_at variables.now tokens.now) }
{
    let (pos, rest) = mark(b"*", tokens)?;
    let (pointer, rest) = variable(variables, rest)?;
    Some((Expr::Load { pos, pointer }, rest))
}

/// Reads an expression. Kinds, and whether its variable has a value, are tested with its step.
#[tactic(auto, unfolding(crate::specs::Straight::Reading::expr_at))]
pub(crate) fn expr<'a>(
    variables: &[Variable],
    tokens: &'a [SourceToken],
) -> Option<(Expr, &'a [SourceToken])>
    requires { length variables.now < 2 ^ 32 }
    ensures { Seen (λ x. (x.0, x.1.now)) result (expr_at variables.now tokens.now) }
{
    if is_at(b"*", tokens) {
        load(variables, tokens)
    } else {
        word(variables, tokens)
    }
}
