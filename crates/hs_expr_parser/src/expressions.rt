//! Parses expressions from the comma to the binary operators (X3.159-1989 3.3.5 to 3.3.17).

ghost use Rattle.std.specs.Prelude.{◌≡◌, ◌<◌, ◌≤◌, length, drop, map, IfOk};
ghost use Rattle.hs_syntax.specs.RowViews.{view_left};
ghost use Rattle.hs_syntax.specs.Views.{view};
ghost use Rattle.hs_expr_parser.specs.Given.{Gives};
ghost use Rattle.hs_expr_parser.specs.Reading.{joined};
ghost use Rattle.hs_expr_parser.specs.Steps.{expression_at, another_at, assignment_at, value_at, conditional_at, branches_at, binary_at, infix_at};

use crate::ahead::{first, found, mark, place_of};
use crate::operators::{assign_of, binary_of};
use crate::parse_end::ParseEnd;
use crate::rank::is_unary;
use crate::type_names::TypeNames;
use crate::unaries::cast;
use hs_base::NoMemory;
use hs_syntax::{AssignOperator, BinaryOperator, Expr, Left, boxed_three, boxed_two, with};
use hs_tokens::{Place, SourceToken};
use std::alloc::Global;

/// The tightest precedence of binary operators (X3.159-1989 3.3.5).
const TIGHTEST: u8 = 10;

/// A comma and its right operand (X3.159-1989 3.3.17).
#[derive(Drop)]
struct Comma {
    at: Place,
    right: Expr,
}

/// A binary operator and its right operand (X3.159-1989 3.3.5 to 3.3.14).
#[derive(Drop)]
struct Operand {
    operator: BinaryOperator,
    at: Place,
    right: Expr,
}

/// Reads an expression (X3.159-1989 3.3.17).
///
/// `expression = assignment { "," assignment }`
///
/// Example: of `a = 1, b;`, it reads the comma of `a = 1` and `b`.
#[cycle(read)]
#[tactic(auto, using(crate::proofs::Stepping::expression_step, crate::proofs::Stepping::commas_end))]
pub fn expression<'a>(
    alloc: Global,
    known: &TypeNames,
    tokens: &'a [SourceToken],
) -> Result<(Expr, &'a [SourceToken]), ParseEnd>
    ensures read { Gives (λ x. (view x.0, x.1.now)) result (expression_at known.now tokens.now) }
    ensures shorter { IfOk result (λ x. length x.1.now < length tokens.now) }
{
    let (start, behind) = assignment(alloc, known, tokens)?;
    let mut lefts = Vec::new(alloc);
    let mut right = start;
    let mut rest = behind;
    'commas: loop {
        match another(alloc, known, rest) {
            Ok((it, left)) => {
                lefts.push(Left {
                    operand: right,
                    at: it.at,
                })?;
                right = it.right;
                rest = left;
            }
            Err(ParseEnd::NotExpr) => return Ok((sequence(alloc, lefts, right)?, rest)),
            Err(ParseEnd::NoMemory) => return Err(ParseEnd::NoMemory),
        }
    }
}

/// The expression of the left operands and the last right one. Without left operands, it is the right one alone.
#[tactic(auto, using(hs_syntax::specs::RowLaws::lefts_seen))]
fn sequence(alloc: Global, lefts: Vec<Left>, right: Expr) -> Result<Expr, NoMemory>
    ensures { IfOk result (λ e. view e ≡ joined (map view_left lefts.items) (view right)) }
{
    if lefts.is_empty() {
        return Ok(right);
    }
    Ok(Expr::Comma {
        lefts,
        right: Box::new(alloc, right)?,
    })
}

/// Reads a comma and its right operand (X3.159-1989 3.3.17).
///
/// `"," assignment`
#[cycle(read)]
#[tactic(auto, using(crate::proofs::Stepping::another_step))]
fn another<'a>(
    alloc: Global,
    known: &TypeNames,
    tokens: &'a [SourceToken],
) -> Result<(Comma, &'a [SourceToken]), ParseEnd>
    ensures read { Gives (λ x. ((x.0.at, view x.0.right), x.1.now)) result (another_at known.now tokens.now) }
    ensures shorter { IfOk result (λ x. length x.1.now < length tokens.now) }
{
    let (at, behind) = mark(tokens, b",")?;
    let (right, rest) = assignment(alloc, known, behind)?;
    Ok((Comma { at, right }, rest))
}

/// Reads an assignment (X3.159-1989 3.3.16): what is assigned to is a unary expression.
///
/// `assignment = conditional | unary assign-operator assignment`
///
/// Example: of `a = 1, b;`, it reads `a = 1`.
#[cycle(read)]
#[tactic(auto, using(crate::proofs::Stepping::assignment_step))]
pub fn assignment<'a>(
    alloc: Global,
    known: &TypeNames,
    tokens: &'a [SourceToken],
) -> Result<(Expr, &'a [SourceToken]), ParseEnd>
    ensures read { Gives (λ x. (view x.0, x.1.now)) result (assignment_at known.now tokens.now) }
    ensures shorter { IfOk result (λ x. length x.1.now < length tokens.now) }
{
    let (target, rest) = conditional(alloc, known, tokens)?;
    if !is_unary(&target) {
        return Ok((target, rest));
    }
    let (target, assigned) = with(target, found(value(alloc, known, rest)))?;
    let Some(((operator, at, value), left)) = assigned else {
        return Ok((target, rest));
    };
    let (target, value) = boxed_two(alloc, target, value)?;
    Ok((
        Expr::Assign {
            target,
            operator,
            at,
            value,
        },
        left,
    ))
}

/// Reads the operator of an assignment and what is assigned (X3.159-1989 3.3.16).
///
/// `assign-operator assignment`
#[cycle(read)]
#[tactic(auto, using(crate::proofs::Stepping::value_step, crate::proofs::Stepping::value_nothing))]
fn value<'a>(
    alloc: Global,
    known: &TypeNames,
    tokens: &'a [SourceToken],
) -> Result<((AssignOperator, Place, Expr), &'a [SourceToken]), ParseEnd>
    ensures read { Gives (λ x. (record { operator = x.0.0; at = x.0.1; value = view x.0.2 }, x.1.now)) result
        (value_at known.now tokens.now) }
    ensures shorter { IfOk result (λ x. length x.1.now < length tokens.now) }
{
    let Some((source, behind)) = first(tokens) else {
        return Err(ParseEnd::NotExpr);
    };
    let Some(operator) = assign_of(source) else {
        return Err(ParseEnd::NotExpr);
    };
    let (value, rest) = assignment(alloc, known, behind)?;
    Ok(((operator, place_of(source), value), rest))
}

/// Reads a conditional expression (X3.159-1989 3.3.15).
///
/// `conditional = binary [ "?" expression ":" conditional ]`
///
/// Example: of `a ? b : c = 1`, it reads `a ? b : c`.
#[cycle(read)]
#[tactic(auto, using(crate::proofs::Stepping::conditional_step))]
pub fn conditional<'a>(
    alloc: Global,
    known: &TypeNames,
    tokens: &'a [SourceToken],
) -> Result<(Expr, &'a [SourceToken]), ParseEnd>
    ensures read { Gives (λ x. (view x.0, x.1.now)) result (conditional_at known.now tokens.now) }
    ensures shorter { IfOk result (λ x. length x.1.now < length tokens.now) }
{
    let (test, rest) = binary(alloc, known, 1, tokens)?;
    let (test, follow) = with(test, found(branches(alloc, known, rest)))?;
    let Some(((at, then, otherwise), left)) = follow else {
        return Ok((test, rest));
    };
    let (test, then, otherwise) = boxed_three(alloc, test, then, otherwise)?;
    Ok((
        Expr::Conditional {
            test,
            at,
            then,
            otherwise,
        },
        left,
    ))
}

/// Reads a conditional expression (X3.159-1989 3.3.15), and says how many tokens it takes.
#[cycle(read)]
#[tactic(auto, using(crate::proofs::Taken::conditional_taken))]
pub(crate) fn conditional_taken(
    alloc: Global,
    known: &TypeNames,
    tokens: &[SourceToken],
) -> Result<(Expr, usize), ParseEnd>
    ensures read { Gives (λ x. (view x.0, drop x.1 tokens.now)) result (conditional_at known.now tokens.now) }
    ensures taken { IfOk result (λ x. (0 < x.1) × (x.1 ≤ length tokens.now)) }
{
    let (e, rest) = conditional(alloc, known, tokens)?;
    Ok((e, tokens.len() - rest.len()))
}

/// Reads what follows a test: a `?`, an expression, a `:` and a conditional expression (X3.159-1989 3.3.15).
///
/// `"?" expression ":" conditional`
#[cycle(read)]
#[tactic(auto, using(crate::proofs::Stepping::branches_step))]
fn branches<'a>(
    alloc: Global,
    known: &TypeNames,
    tokens: &'a [SourceToken],
) -> Result<((Place, Expr, Expr), &'a [SourceToken]), ParseEnd>
    ensures read { Gives (λ x. (record { at = x.0.0; taken = view x.0.1; otherwise = view x.0.2 }, x.1.now)) result
        (branches_at known.now tokens.now) }
    ensures shorter { IfOk result (λ x. length x.1.now < length tokens.now) }
{
    let (at, behind) = mark(tokens, b"?")?;
    let (then, colon) = expression(alloc, known, behind)?;
    let (then, (_, last)) = with(then, mark(colon, b":"))?;
    let (then, (otherwise, rest)) = with(then, conditional(alloc, known, last))?;
    Ok(((at, then, otherwise), rest))
}

/// Reads operands of binary operators that bind at that precedence or more tightly (X3.159-1989 3.3.5 to 3.3.14). They
/// group to the left: after an operator of some precedence no tighter one follows, since its right operand would have
/// taken it.
///
/// `binary = cast { binary-operator cast }`
#[cycle(read)]
#[tactic(auto, using(crate::proofs::Stepping::binary_step, crate::proofs::Stepping::climb_end))]
fn binary<'a>(
    alloc: Global,
    known: &TypeNames,
    least: u8,
    tokens: &'a [SourceToken],
) -> Result<(Expr, &'a [SourceToken]), ParseEnd>
    ensures read { Gives (λ x. (view x.0, x.1.now)) result (binary_at known.now least tokens.now) }
    ensures shorter { IfOk result (λ x. length x.1.now < length tokens.now) }
{
    let (start, behind) = cast(alloc, known, tokens)?;
    let mut left = start;
    let mut most = TIGHTEST;
    let mut rest = behind;
    'operators: loop {
        match infix(alloc, known, least, most, rest) {
            Ok((it, next)) => {
                left = Expr::Binary {
                    left: Box::new(alloc, left)?,
                    operator: it.operator,
                    at: it.at,
                    right: Box::new(alloc, it.right)?,
                };
                most = it.operator.precedence();
                rest = next;
            }
            Err(ParseEnd::NotExpr) => return Ok((left, rest)),
            Err(ParseEnd::NoMemory) => return Err(ParseEnd::NoMemory),
        }
    }
}

/// Reads a binary operator of at least the first precedence and at most the second, and its right operand.
///
/// `binary-operator binary`
#[cycle(read)]
#[tactic(auto, using(crate::proofs::Stepping::infix_step, crate::proofs::Stepping::infix_nothing, crate::specs::Laws::Ranks::precedence_most))]
fn infix<'a>(
    alloc: Global,
    known: &TypeNames,
    least: u8,
    most: u8,
    tokens: &'a [SourceToken],
) -> Result<(Operand, &'a [SourceToken]), ParseEnd>
    ensures read { Gives (λ x. (record { operator = x.0.operator; at = x.0.at; right = view x.0.right }, x.1.now)) result
        (infix_at known.now least most tokens.now) }
    ensures shorter { IfOk result (λ x. length x.1.now < length tokens.now) }
{
    let Some((source, behind)) = first(tokens) else {
        return Err(ParseEnd::NotExpr);
    };
    let Some(operator) = binary_of(source) else {
        return Err(ParseEnd::NotExpr);
    };
    let precedence = operator.precedence();
    if !(least <= precedence && precedence <= most) {
        return Err(ParseEnd::NotExpr);
    }
    let (right, rest) = binary(alloc, known, precedence + 1, behind)?;
    Ok((
        Operand {
            operator,
            at: place_of(source),
            right,
        },
        rest,
    ))
}
