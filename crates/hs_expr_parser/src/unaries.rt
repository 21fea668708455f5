//! Parses casts and unary expressions (X3.159-1989 3.3.3 and 3.3.4).

ghost use Rattle.std.specs.Prelude.{◌≡◌, ◌<◌, ◌≤◌, length, drop, map, IfOk};
ghost use Rattle.hs_syntax.specs.Trees as tree;
ghost use Rattle.hs_syntax.specs.Views.{view, view_type};
ghost use Rattle.hs_expr_parser.specs.Given.{Gives};
ghost use Rattle.hs_expr_parser.specs.Steps.{conditional_at, cast_at, type_in_parens_at, unary_at, operand_of, sizeof_at};

use crate::ahead::{begins_type, first, is_keyword, mark, place_of};
use crate::expressions::conditional_taken;
use crate::operators::prefix_of;
use crate::parse_end::ParseEnd;
use crate::postfixes::postfix;
use crate::type_names::TypeNames;
use crate::types::type_name;
use hs_syntax::{Expr, PrefixOperator, TypeName, boxed_two, with};
use hs_tokens::{Place, SourceToken};
use std::alloc::Global;

/// Reads a cast (X3.159-1989 3.3.4).
///
/// `cast = unary | "(" type-name ")" cast`
#[cycle(read)]
#[tactic(auto, using(crate::proofs::Stepping::cast_step, hs_syntax::specs::RowLaws::boxed_type_seen))]
pub(crate) fn cast<'a>(
    alloc: Global,
    known: &TypeNames,
    tokens: &'a [SourceToken],
) -> Result<(Expr, &'a [SourceToken]), ParseEnd>
    ensures read { Gives (λ x. (view x.0, x.1.now)) result (cast_at known.now tokens.now) }
    ensures shorter { IfOk result (λ x. length x.1.now < length tokens.now) }
{
    if !begins_type(known, tokens) {
        return unary(alloc, known, tokens);
    }
    let ((at, type_name), behind) = type_in_parens(alloc, known, tokens)?;
    let (type_name, (operand, rest)) = with(type_name, cast(alloc, known, behind))?;
    let (type_name, operand) = boxed_two(alloc, type_name, operand)?;
    Ok((
        Expr::Cast {
            at,
            type_name,
            operand,
        },
        rest,
    ))
}

/// Reads a type name in parentheses, and gives the place of the first of them.
///
/// `"(" type-name ")"`
#[cycle(read)]
#[tactic(auto, using(crate::proofs::Stepping::type_in_parens_step))]
fn type_in_parens<'a>(
    alloc: Global,
    known: &TypeNames,
    tokens: &'a [SourceToken],
) -> Result<((Place, TypeName), &'a [SourceToken]), ParseEnd>
    ensures read { Gives (λ x. ((x.0.0, view_type x.0.1), x.1.now)) result (type_in_parens_at known.now tokens.now) }
    ensures shorter { IfOk result (λ x. length x.1.now < length tokens.now) }
{
    let (at, behind) = mark(tokens, b"(")?;
    let conditional = |inner: &[SourceToken]|
        requires { length inner.now < length tokens.now }
        ensures read { Gives (λ x. (view x.0, drop x.1 inner.now)) result (conditional_at known.entry.now inner.now) }
        ensures shorter { IfOk result (λ x. (0 < x.1) × (x.1 ≤ length inner.now)) }
    {
        // captured, so that the clause can name it
        let _within = tokens;
        conditional_taken(alloc, known, inner)
    };
    let (it, close) = type_name(alloc, known, &conditional, behind)?;
    let (it, (_, rest)) = with(it, mark(close, b")"))?;
    Ok(((at, it), rest))
}

/// Reads a unary expression (X3.159-1989 3.3.3).
///
/// `unary = postfix | ("++" | "--") unary | ("&" | "*" | "+" | "-" | "~" | "!") cast | "sizeof" sizeof-operand`
#[cycle(read)]
#[tactic(auto, using(crate::proofs::Stepping::unary_nothing, crate::proofs::Stepping::unary_prefix, crate::proofs::Stepping::unary_sizeof, crate::proofs::Stepping::unary_postfix))]
pub(crate) fn unary<'a>(
    alloc: Global,
    known: &TypeNames,
    tokens: &'a [SourceToken],
) -> Result<(Expr, &'a [SourceToken]), ParseEnd>
    ensures read { Gives (λ x. (view x.0, x.1.now)) result (unary_at known.now tokens.now) }
    ensures shorter { IfOk result (λ x. length x.1.now < length tokens.now) }
{
    let Some((source, behind)) = first(tokens) else {
        return Err(ParseEnd::NotExpr);
    };
    if let Some(operator) = prefix_of(source) {
        let (operand, rest) = operand(alloc, known, operator, behind)?;
        return Ok((
            Expr::Prefix {
                operator,
                at: place_of(source),
                operand: Box::new(alloc, operand)?,
            },
            rest,
        ));
    }
    if is_keyword(source, b"sizeof") {
        return sizeof_operand(alloc, known, place_of(source), behind);
    }
    postfix(alloc, known, tokens)
}

/// Reads the operand of an operator: a unary expression after `++` and `--`, and a cast after the others.
///
/// `operand = unary | cast`
#[cycle(read)]
#[tactic(auto, using(crate::proofs::Stepping::operand_increment, crate::proofs::Stepping::operand_decrement, crate::proofs::Stepping::operand_address, crate::proofs::Stepping::operand_dereference, crate::proofs::Stepping::operand_plus, crate::proofs::Stepping::operand_minus, crate::proofs::Stepping::operand_complement, crate::proofs::Stepping::operand_not))]
fn operand<'a>(
    alloc: Global,
    known: &TypeNames,
    operator: PrefixOperator,
    tokens: &'a [SourceToken],
) -> Result<(Expr, &'a [SourceToken]), ParseEnd>
    ensures read { Gives (λ x. (view x.0, x.1.now)) result (operand_of known.now operator tokens.now) }
    ensures shorter { IfOk result (λ x. length x.1.now < length tokens.now) }
{
    match operator {
        PrefixOperator::Increment | PrefixOperator::Decrement => unary(alloc, known, tokens),
        PrefixOperator::Address
        | PrefixOperator::Dereference
        | PrefixOperator::Plus
        | PrefixOperator::Minus
        | PrefixOperator::Complement
        | PrefixOperator::Not => cast(alloc, known, tokens),
    }
}

/// Reads what follows a `sizeof` at that place: a type name in parentheses, or a unary expression.
///
/// `sizeof-operand = unary | "(" type-name ")"`
#[cycle(read)]
#[tactic(auto, using(crate::proofs::Stepping::sizeof_step, hs_syntax::specs::RowLaws::boxed_type_seen))]
fn sizeof_operand<'a>(
    alloc: Global,
    known: &TypeNames,
    at: Place,
    rest: &'a [SourceToken],
) -> Result<(Expr, &'a [SourceToken]), ParseEnd>
    ensures read { Gives (λ x. (view x.0, x.1.now)) result (sizeof_at known.now at rest.now) }
    ensures shorter { IfOk result (λ x. length x.1.now < length rest.now) }
{
    if begins_type(known, rest) {
        let ((_, type_name), left) = type_in_parens(alloc, known, rest)?;
        return Ok((
            Expr::SizeofType {
                at,
                type_name: Box::new(alloc, type_name)?,
            },
            left,
        ));
    }
    let (operand, left) = unary(alloc, known, rest)?;
    Ok((
        Expr::SizeofValue {
            at,
            operand: Box::new(alloc, operand)?,
        },
        left,
    ))
}
