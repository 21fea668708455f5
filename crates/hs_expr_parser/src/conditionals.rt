//! Reads conditional expressions (X3.159-1989 3.3.15) within types and declarators, by a parser that is an argument.
//!
//! So the functions that read types and declarators are proved apart from those that read expressions. The parser
//! returns how many tokens it took, and not the tokens that are left: functions that call each other in a cycle cannot
//! have a bound that names a lifetime.

ghost use Rattle.std.specs.Prelude.{◌<◌, length, IfOk};
ghost use Rattle.hs_syntax.specs.Views.{view};
ghost use Rattle.hs_expr_parser.specs.Conditionals.{MayAsk, ReadsConditionals};
ghost use Rattle.hs_expr_parser.specs.Given.{Gives};
ghost use Rattle.hs_expr_parser.specs.Steps.{conditional_at};

use crate::parse_end::ParseEnd;
use crate::type_names::TypeNames;
use hs_syntax::Expr;
use hs_tokens::SourceToken;

/// Reads a conditional expression (X3.159-1989 3.3.15) by that parser, which knows those typedef names. These are taken for the
/// clauses alone.
#[tactic(auto, using(crate::proofs::Numbered::slice_is))]
pub(crate) fn conditional_by<'a, F: Fn(&[SourceToken]) -> Result<(Expr, usize), ParseEnd>>(
    _known: &TypeNames,
    conditional: &F,
    tokens: &'a [SourceToken],
) -> Result<(Expr, &'a [SourceToken]), ParseEnd>
    requires asks { MayAsk (F.pre conditional.now) (length tokens.now) }
    requires reads { ReadsConditionals (F.post conditional.now) _known.now (length tokens.now) }
    ensures read { Gives (λ x. (view x.0, x.1.now)) result (conditional_at _known.now tokens.now) }
    ensures shorter { IfOk result (λ x. length x.1.now < length tokens.now) }
{
    let (e, taken) = conditional(tokens)?;
    Ok((e, &tokens[taken..]))
}
