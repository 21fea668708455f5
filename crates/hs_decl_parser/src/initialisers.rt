//! Parses initialisers (X3.159-1989 3.5.7).

ghost use Rattle.std.specs.Prelude.{◌≡◌, ◌<◌, ◌≤◌, [], length, map, option_map, IfOk};
ghost use Rattle.hs_syntax.specs.Views.{view_initialiser};
ghost use Rattle.hs_expr_parser.specs.Given.{Gives};
ghost use Rattle.hs_decl_parser.specs.Steps.{braces_at, initialiser_at, initialisers_at, start_at};

use hs_expr_parser::{ParseEnd, TypeNames, assignment, is_mark_ahead, mark, mark_ahead};
use hs_syntax::{Initialiser, with};
use hs_tokens::{Place, SourceToken};
use std::alloc::Global;

/// The initialisers of a list, and whether a comma ends them (X3.159-1989 3.5.7).
#[derive(Drop)]
struct Values {
    values: Vec<Initialiser>,
    comma: bool,
}

/// Reads an initialiser (X3.159-1989 3.5.7).
///
/// `initialiser = assignment | "{" initialiser { "," initialiser } [","] "}"`
#[cycle(initialiser)]
#[tactic(auto, using(crate::proofs::Stepping::initialiser_list, crate::proofs::Stepping::initialiser_value))]
pub(crate) fn initialiser<'a>(
    alloc: Global,
    known: &TypeNames,
    tokens: &'a [SourceToken],
) -> Result<(Initialiser, &'a [SourceToken]), ParseEnd>
    ensures read { Gives (λ x. (view_initialiser x.0, x.1.now)) result (initialiser_at known.now tokens.now) }
    ensures shorter { IfOk result (λ x. length x.1.now < length tokens.now) }
{
    let Some((brace, behind)) = mark_ahead(tokens, b"{") else {
        let (e, rest) = assignment(alloc, known, tokens)?;
        return Ok((Initialiser::Value(e), rest));
    };
    braces(alloc, known, brace, behind)
}

/// Reads a list of initialisers after its `{`, which stands there.
///
/// `initialiser { "," initialiser } [","] "}"`
#[cycle(initialiser)]
#[tactic(auto, using(crate::proofs::Stepping::braces_step, hs_syntax::specs::StatementLaws::initialisers_seen))]
fn braces<'a>(
    alloc: Global,
    known: &TypeNames,
    at: Place,
    rest: &'a [SourceToken],
) -> Result<(Initialiser, &'a [SourceToken]), ParseEnd>
    ensures read { Gives (λ x. (view_initialiser x.0, x.1.now)) result (braces_at known.now at rest.now) }
    ensures shorter { IfOk result (λ x. length x.1.now < length rest.now) }
{
    let (list, close) = initialisers(alloc, known, rest)?;
    let (list, (_, left)) = with(list, mark(close, b"}"))?;
    Ok((
        Initialiser::List {
            at,
            values: list.values,
            comma: list.comma,
        },
        left,
    ))
}

/// Reads initialisers, at least one, up to a `}`, and whether a comma follows the last one.
///
/// `initialiser { "," initialiser } [","]`
#[cycle(initialiser)]
#[tactic(auto, using(crate::proofs::Stepping::initialisers_step, crate::proofs::Stepping::initialisers_end, crate::proofs::Stepping::initialisers_close))]
fn initialisers<'a>(
    alloc: Global,
    known: &TypeNames,
    tokens: &'a [SourceToken],
) -> Result<(Values, &'a [SourceToken]), ParseEnd>
    ensures read { Gives (λ x. ((map view_initialiser x.0.values.items, x.0.comma), x.1.now)) result
        (initialisers_at known.now [] tokens.now) }
    ensures shorter { IfOk result (λ x. length x.1.now < length tokens.now) }
{
    let mut values = Vec::new(alloc);
    let (start, behind) = initialiser(alloc, known, tokens)?;
    values.push(start)?;
    let mut rest = behind;
    'initialisers: while let Some((_, next)) = mark_ahead(rest, b",") {
        if is_mark_ahead(next, b"}") {
            return Ok((
                Values {
                    values,
                    comma: true,
                },
                next,
            ));
        }
        let (it, left) = initialiser(alloc, known, next)?;
        values.push(it)?;
        rest = left;
    }
    Ok((
        Values {
            values,
            comma: false,
        },
        rest,
    ))
}

/// Reads what a declarator starts with, if anything, after the declarator (X3.159-1989 3.5).
///
/// `[ "=" initialiser ]`
#[tactic(auto, using(crate::proofs::Stepping::start_some, crate::proofs::Stepping::start_none))]
pub(crate) fn start<'a>(
    alloc: Global,
    known: &TypeNames,
    tokens: &'a [SourceToken],
) -> Result<(Option<Initialiser>, &'a [SourceToken]), ParseEnd>
    ensures read { Gives (λ x. (option_map view_initialiser x.0, x.1.now)) result (start_at known.now tokens.now) }
    ensures shorter { IfOk result (λ x. length x.1.now ≤ length tokens.now) }
{
    let Some((_, behind)) = mark_ahead(tokens, b"=") else {
        return Ok((None, tokens));
    };
    let (it, rest) = initialiser(alloc, known, behind)?;
    Ok((Some(it), rest))
}
