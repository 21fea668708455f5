//! Parses the labels of a switch (X3.159-1989 3.6.1).

ghost use Rattle.std.specs.Prelude.{◌≡◌, ◌<◌, ◌≤◌, [], length, map, IfOk};
ghost use Rattle.hs_syntax.specs.Views.{view_label};
ghost use Rattle.hs_expr_parser.specs.Given.{Gives};
ghost use Rattle.hs_decl_parser.specs.Steps.{label_at, labels_at};

use crate::words::begins_label;
use hs_expr_parser::{ParseEnd, TypeNames, conditional, first, is_keyword, mark, place_of};
use hs_syntax::{Label, with};
use hs_tokens::SourceToken;
use std::alloc::Global;

/// Reads a label that begins with that token (X3.159-1989 3.6.1).
///
/// `label = "case" conditional ":" | "default" ":"`
#[tactic(auto, using(crate::proofs::Stepping::label_case, crate::proofs::Stepping::label_default))]
fn label<'a>(
    alloc: Global,
    known: &TypeNames,
    source: &SourceToken,
    rest: &'a [SourceToken],
) -> Result<(Label, &'a [SourceToken]), ParseEnd>
    ensures read { Gives (λ x. (view_label x.0, x.1.now)) result (label_at known.now source.now rest.now) }
    ensures shorter { IfOk result (λ x. length x.1.now < length rest.now) }
{
    let at = place_of(source);
    if is_keyword(source, b"case") {
        let (value, colon) = conditional(alloc, known, rest)?;
        let (value, (_, left)) = with(value, mark(colon, b":"))?;
        return Ok((Label::Case { at, value }, left));
    }
    let (_, left) = mark(rest, b":")?;
    Ok((Label::Default(at), left))
}

/// Reads the labels in front of a statement (X3.159-1989 3.6.1).
///
/// `{ label }`
#[tactic(auto, using(crate::proofs::Stepping::labels_nothing, crate::proofs::Stepping::labels_end))]
pub(crate) fn labels<'a>(
    alloc: Global,
    known: &TypeNames,
    tokens: &'a [SourceToken],
) -> Result<(Vec<Label>, &'a [SourceToken]), ParseEnd>
    ensures read { Gives (λ x. (map view_label x.0.items, x.1.now)) result (labels_at known.now [] tokens.now) }
    ensures shorter { IfOk result (λ x. length x.1.now ≤ length tokens.now) }
{
    let mut its = Vec::new(alloc);
    let mut rest = tokens;
    'labels: while let Some((source, behind)) = first(rest)
        && begins_label(source)
    {
        let (it, left) = label(alloc, known, source, behind)?;
        its.push(it)?;
        rest = left;
    }
    Ok((its, rest))
}
