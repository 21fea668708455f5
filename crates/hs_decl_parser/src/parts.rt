//! Parses parts of statements: tests, the controls of a `for`, and expressions that may be missing.

ghost use Rattle.std.specs.Prelude.{◌≡◌, ◌<◌, length, option_map, IfOk};
ghost use Rattle.hs_syntax.specs.Views.{view};
ghost use Rattle.hs_expr_parser.specs.Given.{Gives};
ghost use Rattle.hs_decl_parser.specs.Steps.{test_at, optional_at, controls_at};

use hs_expr_parser::{ParseEnd, TypeNames, expression, mark, mark_ahead};
use hs_syntax::{Expr, with};
use hs_tokens::SourceToken;
use std::alloc::Global;

/// What stands in the parentheses of a `for` (X3.159-1989 3.6.5.3).
#[derive(Drop)]
pub(crate) struct Controls {
    pub(crate) first: Option<Expr>,
    pub(crate) test: Option<Expr>,
    pub(crate) step: Option<Expr>,
}

/// Reads an expression in parentheses (X3.159-1989 3.6.4, 3.6.5).
///
/// `"(" expression ")"`
#[tactic(auto, using(crate::proofs::Stepping::test_step))]
pub(crate) fn test<'a>(
    alloc: Global,
    known: &TypeNames,
    tokens: &'a [SourceToken],
) -> Result<(Expr, &'a [SourceToken]), ParseEnd>
    ensures read { Gives (λ x. (view x.0, x.1.now)) result (test_at known.now tokens.now) }
    ensures shorter { IfOk result (λ x. length x.1.now < length tokens.now) }
{
    let (_, behind) = mark(tokens, b"(")?;
    let (e, close) = expression(alloc, known, behind)?;
    let (e, (_, rest)) = with(e, mark(close, b")"))?;
    Ok((e, rest))
}

/// Reads an expression, if one stands there, and that punctuator after it.
///
/// `[expression] mark`
#[tactic(auto, using(crate::proofs::Stepping::optional_none, crate::proofs::Stepping::optional_some))]
pub(crate) fn optional<'a>(
    alloc: Global,
    known: &TypeNames,
    tokens: &'a [SourceToken],
    end: &[u8],
) -> Result<(Option<Expr>, &'a [SourceToken]), ParseEnd>
    ensures read { Gives (λ x. (option_map view x.0, x.1.now)) result (optional_at known.now end.now tokens.now) }
    ensures shorter { IfOk result (λ x. length x.1.now < length tokens.now) }
{
    if let Some((_, rest)) = mark_ahead(tokens, end) {
        return Ok((None, rest));
    }
    let (e, close) = expression(alloc, known, tokens)?;
    let (e, (_, rest)) = with(e, mark(close, end))?;
    Ok((Some(e), rest))
}

/// Reads what stands in the parentheses of a `for`, and these (X3.159-1989 3.6.5.3).
///
/// `"(" [expression] ";" [expression] ";" [expression] ")"`
#[tactic(auto, using(crate::proofs::Stepping::controls_step))]
pub(crate) fn for_controls<'a>(
    alloc: Global,
    known: &TypeNames,
    tokens: &'a [SourceToken],
) -> Result<(Controls, &'a [SourceToken]), ParseEnd>
    ensures read { Gives (λ x. (
      record {
        first = option_map view x.0.first;
        test = option_map view x.0.test;
        step = option_map view x.0.step;
      },
      x.1.now,
    )) result (controls_at known.now tokens.now) }
    ensures shorter { IfOk result (λ x. length x.1.now < length tokens.now) }
{
    let (_, behind) = mark(tokens, b"(")?;
    let (first, second) = optional(alloc, known, behind, b";")?;
    let (first, (test, third)) = with(first, optional(alloc, known, second, b";"))?;
    let ((first, test), (step, rest)) = with((first, test), optional(alloc, known, third, b")"))?;
    Ok((Controls { first, test, step }, rest))
}
