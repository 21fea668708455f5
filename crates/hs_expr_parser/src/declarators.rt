//! Parses declarators (X3.159-1989 3.5.4 and 3.5.5).

ghost use Rattle.std.specs.Prelude.{◌≡◌, ◌<◌, ◌≤◌, [], length, map, IfOk};
ghost use Rattle.hs_syntax.specs.RowViews.{view_parameter};
ghost use Rattle.hs_syntax.specs.Views.{view_declarator, view_direct};
ghost use Rattle.hs_expr_parser.specs.Conditionals.{MayAsk, ReadsConditionals};
ghost use Rattle.hs_expr_parser.specs.Given.{Gives};
ghost use Rattle.hs_expr_parser.specs.Steps.{declarator_at, base_at, inside_at, directs_at, length_at, list_at, declarators_at, parameters_at, parameter_at};

use crate::ahead::{
    begins_list, first, is_mark_ahead, is_punctuator, mark, mark_ahead, pointers, void_alone,
    word_of,
};
use crate::conditionals::conditional_by;
use crate::named::is_empty;
use crate::parse_end::ParseEnd;
use crate::type_names::TypeNames;
use crate::types::specifiers;
use crate::words::is_name;
use hs_syntax::{Declarator, Direct, Expr, Parameter, with};
use hs_tokens::{SourceToken, is_identifier};
use std::alloc::Global;

/// Reads a declarator (X3.159-1989 3.5.4), or, in a parameter or a type name, one that may name nothing (3.5.5).
///
/// `declarator = { "*" | dropped } direct`, where `direct` is what [`base`] and [`directs`] read
///
/// Example: of `*p[4];`, it reads `*p[4]`: an array of 4 pointers.
#[cycle(types)]
#[tactic(auto, using(crate::proofs::Stepping::declarator_step))]
pub(crate) fn declarator<'a, F: Fn(&[SourceToken]) -> Result<(Expr, usize), ParseEnd>>(
    alloc: Global,
    known: &TypeNames,
    conditional: &F,
    inner: bool,
    tokens: &'a [SourceToken],
) -> Result<(Declarator, &'a [SourceToken]), ParseEnd>
    requires asks { MayAsk (F.pre conditional.now) (length tokens.now) }
    requires reads { ReadsConditionals (F.post conditional.now) known.now (length tokens.now) }
    ensures read { Gives (λ x. (view_declarator x.0, x.1.now)) result (declarator_at known.now inner tokens.now) }
    ensures shorter { IfOk result (λ x. length x.1.now ≤ length tokens.now) }
{
    let (pointers, behind) = pointers(alloc, tokens)?;
    let (base, left) = base(alloc, known, conditional, inner, behind)?;
    let (direct, rest) = directs(alloc, known, conditional, base, left)?;
    Ok((Declarator { pointers, direct }, rest))
}

/// Reads what the rest of a declarator follows: a name, a declarator in parentheses, or nothing if a name may
/// be missing. There a `(` that may begin a list of parameters does.
///
/// `identifier | "(" declarator ")" | nothing`
#[cycle(types)]
#[tactic(auto, using(crate::proofs::Stepping::base_nothing, crate::proofs::Stepping::base_step))]
fn base<'a, F: Fn(&[SourceToken]) -> Result<(Expr, usize), ParseEnd>>(
    alloc: Global,
    known: &TypeNames,
    conditional: &F,
    inner: bool,
    tokens: &'a [SourceToken],
) -> Result<(Direct, &'a [SourceToken]), ParseEnd>
    requires asks { MayAsk (F.pre conditional.now) (length tokens.now) }
    requires reads { ReadsConditionals (F.post conditional.now) known.now (length tokens.now) }
    ensures read { Gives (λ x. (view_direct x.0, x.1.now)) result (base_at known.now inner tokens.now) }
    ensures shorter { IfOk result (λ x. length x.1.now ≤ length tokens.now) }
{
    if let Some((source, rest)) = first(tokens) {
        if is_identifier(&source.token) && is_name(source.token.text.items()) {
            return Ok((Direct::Name(word_of(source)?), rest));
        }
        if is_punctuator(source, b"(") && !(inner && begins_list(known, rest)) {
            return inside(alloc, known, conditional, inner, rest);
        }
    }
    if inner {
        return Ok((Direct::Empty, tokens));
    }
    Err(ParseEnd::NotExpr)
}

/// Reads a declarator in parentheses, after the first of them: it is not empty.
///
/// `declarator ")"`
#[cycle(types)]
#[tactic(auto, using(crate::proofs::Stepping::inside_step))]
fn inside<'a, F: Fn(&[SourceToken]) -> Result<(Expr, usize), ParseEnd>>(
    alloc: Global,
    known: &TypeNames,
    conditional: &F,
    inner: bool,
    rest: &'a [SourceToken],
) -> Result<(Direct, &'a [SourceToken]), ParseEnd>
    requires asks { MayAsk (F.pre conditional.now) (length rest.now) }
    requires reads { ReadsConditionals (F.post conditional.now) known.now (length rest.now) }
    ensures read { Gives (λ x. (view_direct x.0, x.1.now)) result (inside_at known.now inner rest.now) }
    ensures shorter { IfOk result (λ x. length x.1.now ≤ length rest.now) }
{
    let (it, close) = declarator(alloc, known, conditional, inner, rest)?;
    let (it, (_, left)) = with(it, mark(close, b")"))?;
    if is_empty(&it) {
        return Err(ParseEnd::NotExpr);
    }
    Ok((Direct::Parens(Box::new(alloc, it)?), left))
}

/// Reads the rest of a declarator: lengths of arrays and lists of parameters (X3.159-1989 3.5.4.2, 3.5.4.3).
///
/// `{ "[" [conditional] "]" | "(" [ "void" | parameters ] ")" }`
#[cycle(types)]
#[tactic(auto, using(crate::proofs::Stepping::directs_nothing, crate::proofs::Stepping::directs_length, crate::proofs::Stepping::directs_list, crate::proofs::Stepping::directs_end))]
fn directs<'a, F: Fn(&[SourceToken]) -> Result<(Expr, usize), ParseEnd>>(
    alloc: Global,
    known: &TypeNames,
    conditional: &F,
    base: Direct,
    tokens: &'a [SourceToken],
) -> Result<(Direct, &'a [SourceToken]), ParseEnd>
    requires asks { MayAsk (F.pre conditional.now) (length tokens.now) }
    requires reads { ReadsConditionals (F.post conditional.now) known.now (length tokens.now) }
    ensures read { Gives (λ x. (view_direct x.0, x.1.now)) result (directs_at known.now (view_direct base) tokens.now) }
    ensures shorter { IfOk result (λ x. length x.1.now ≤ length tokens.now) }
{
    let mut direct = base;
    let mut rest = tokens;
    'directs: while let Some((source, behind)) = first(rest) {
        if is_punctuator(source, b"[") {
            let (it, left) = array_length(alloc, known, conditional, direct, behind)?;
            direct = it;
            rest = left;
        } else if is_punctuator(source, b"(") {
            let (it, left) = parameter_list(alloc, known, conditional, direct, behind)?;
            direct = it;
            rest = left;
        } else {
            return Ok((direct, rest));
        }
    }
    Ok((direct, rest))
}

/// Reads the length of an array, if it has one, after the `[` (X3.159-1989 3.5.4.2).
///
/// `[conditional] "]"`
#[tactic(auto, using(crate::proofs::Stepping::length_step))]
fn array_length<'a, F: Fn(&[SourceToken]) -> Result<(Expr, usize), ParseEnd>>(
    alloc: Global,
    known: &TypeNames,
    conditional: &F,
    base: Direct,
    rest: &'a [SourceToken],
) -> Result<(Direct, &'a [SourceToken]), ParseEnd>
    requires asks { MayAsk (F.pre conditional.now) (length rest.now) }
    requires reads { ReadsConditionals (F.post conditional.now) known.now (length rest.now) }
    ensures read { Gives (λ x. (view_direct x.0, x.1.now)) result (length_at known.now (view_direct base) rest.now) }
    ensures shorter { IfOk result (λ x. length x.1.now < length rest.now) }
{
    let base = Box::new(alloc, base)?;
    if let Some((_, left)) = mark_ahead(rest, b"]") {
        return Ok((Direct::Array(base), left));
    }
    let (base, (length, close)) = with(base, conditional_by(known, conditional, rest))?;
    let ((base, length), (_, left)) = with((base, length), mark(close, b"]"))?;
    let (base, length) = with(base, Box::new(alloc, length))?;
    Ok((Direct::Sized { base, length }, left))
}

/// Reads a list of parameters after the `(`: none, `void` alone, or some (X3.159-1989 3.5.4.3).
///
/// `[ "void" | parameters ] ")"`
#[cycle(types)]
#[tactic(auto, using(crate::proofs::Stepping::list_step, hs_syntax::specs::RowLaws::parameters_seen))]
fn parameter_list<'a, F: Fn(&[SourceToken]) -> Result<(Expr, usize), ParseEnd>>(
    alloc: Global,
    known: &TypeNames,
    conditional: &F,
    base: Direct,
    rest: &'a [SourceToken],
) -> Result<(Direct, &'a [SourceToken]), ParseEnd>
    requires asks { MayAsk (F.pre conditional.now) (length rest.now) }
    requires reads { ReadsConditionals (F.post conditional.now) known.now (length rest.now) }
    ensures read { Gives (λ x. (view_direct x.0, x.1.now)) result (list_at known.now (view_direct base) rest.now) }
    ensures shorter { IfOk result (λ x. length x.1.now < length rest.now) }
{
    if let Some((_, left)) = mark_ahead(rest, b")") {
        return Ok((
            Direct::Function {
                base: Box::new(alloc, base)?,
                parameters: Vec::new(alloc),
            },
            left,
        ));
    }
    if let Some((at, left)) = void_alone(rest) {
        return Ok((
            Direct::FunctionOfVoid {
                base: Box::new(alloc, base)?,
                at,
            },
            left,
        ));
    }
    let (base, (parameters, close)) = with(base, parameters(alloc, known, conditional, rest))?;
    let ((base, parameters), (_, left)) = with((base, parameters), mark(close, b")"))?;
    let (parameters, base) = with(parameters, Box::new(alloc, base))?;
    Ok((Direct::Function { base, parameters }, left))
}

/// Reads declarators with commas between them (X3.159-1989 3.5).
///
/// `declarator { "," declarator }`
#[cycle(types)]
#[tactic(auto, using(crate::proofs::Stepping::declarators_step))]
pub(crate) fn declarators<'a, F: Fn(&[SourceToken]) -> Result<(Expr, usize), ParseEnd>>(
    alloc: Global,
    known: &TypeNames,
    conditional: &F,
    tokens: &'a [SourceToken],
) -> Result<(Vec<Declarator>, &'a [SourceToken]), ParseEnd>
    requires asks { MayAsk (F.pre conditional.now) (length tokens.now) }
    requires reads { ReadsConditionals (F.post conditional.now) known.now (length tokens.now) }
    ensures read { Gives (λ x. (map view_declarator x.0.items, x.1.now)) result (declarators_at known.now [] tokens.now) }
    ensures shorter { IfOk result (λ x. length x.1.now ≤ length tokens.now) }
{
    let mut its = Vec::with_capacity(alloc, 1)?;
    let (start, behind) = declarator(alloc, known, conditional, false, tokens)?;
    its.push(start)?;
    let mut rest = behind;
    'declarators: while let Some((_, next)) = mark_ahead(rest, b",") {
        let (it, left) = declarator(alloc, known, conditional, false, next)?;
        its.push(it)?;
        rest = left;
    }
    Ok((its, rest))
}

/// Reads parameters with commas between them (X3.159-1989 3.5.4.3).
///
/// `parameters = parameter { "," parameter }`
#[cycle(types)]
#[tactic(auto, using(crate::proofs::Stepping::parameters_step))]
fn parameters<'a, F: Fn(&[SourceToken]) -> Result<(Expr, usize), ParseEnd>>(
    alloc: Global,
    known: &TypeNames,
    conditional: &F,
    tokens: &'a [SourceToken],
) -> Result<(Vec<Parameter>, &'a [SourceToken]), ParseEnd>
    requires asks { MayAsk (F.pre conditional.now) (length tokens.now) }
    requires reads { ReadsConditionals (F.post conditional.now) known.now (length tokens.now) }
    ensures read { Gives (λ x. (map view_parameter x.0.items, x.1.now)) result (parameters_at known.now [] tokens.now) }
    ensures shorter { IfOk result (λ x. length x.1.now < length tokens.now) }
{
    let mut its = Vec::with_capacity(alloc, 1)?;
    let (start, behind) = parameter(alloc, known, conditional, tokens)?;
    its.push(start)?;
    let mut rest = behind;
    'parameters: while let Some((_, next)) = mark_ahead(rest, b",") {
        let (it, left) = parameter(alloc, known, conditional, next)?;
        its.push(it)?;
        rest = left;
    }
    Ok((its, rest))
}

/// Reads a parameter: specifiers, and a declarator that may name nothing (X3.159-1989 3.5.4.3).
///
/// `parameter = specifiers [ declarator | abstract ]`
#[cycle(types)]
#[tactic(auto, using(crate::proofs::Stepping::parameter_step, hs_syntax::specs::RowLaws::specification_seen))]
fn parameter<'a, F: Fn(&[SourceToken]) -> Result<(Expr, usize), ParseEnd>>(
    alloc: Global,
    known: &TypeNames,
    conditional: &F,
    tokens: &'a [SourceToken],
) -> Result<(Parameter, &'a [SourceToken]), ParseEnd>
    requires asks { MayAsk (F.pre conditional.now) (length tokens.now) }
    requires reads { ReadsConditionals (F.post conditional.now) known.now (length tokens.now) }
    ensures read { Gives (λ x. (view_parameter x.0, x.1.now)) result (parameter_at known.now tokens.now) }
    ensures shorter { IfOk result (λ x. length x.1.now < length tokens.now) }
{
    let (specifiers, behind) = specifiers(alloc, known, conditional, tokens)?;
    let (specifiers, (declarator, rest)) = with(
        specifiers,
        declarator(alloc, known, conditional, true, behind),
    )?;
    Ok((
        Parameter {
            specifiers,
            declarator,
        },
        rest,
    ))
}
