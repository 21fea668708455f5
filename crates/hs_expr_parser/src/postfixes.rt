//! Parses postfix and primary expressions (X3.159-1989 3.3.1 and 3.3.2).

ghost use Rattle.std.specs.Prelude.{◌≡◌, ◌<◌, ◌≤◌, length, map, IfOk};
ghost use Rattle.hs_syntax.specs.RowViews.{expressions_from};
ghost use Rattle.hs_syntax.specs.Trees as tree;
ghost use Rattle.hs_syntax.specs.Trees.{Expression};
ghost use Rattle.hs_syntax.specs.Views.{view};
ghost use Rattle.hs_expr_parser.specs.Given.{Gives};
ghost use Rattle.hs_expr_parser.specs.Steps.{postfix_at, suffix_at, primary_at, parens_at, some_arguments_at};
ghost use Rattle.hs_expr_parser.specs.Suffixes.{applied};

use crate::ahead::{
    first, is_mark_ahead, is_punctuator, literals, mark, mark_ahead, name, place_of, word_of,
};
use crate::expressions::{assignment, expression};
use crate::operators::{access_of, postfix_of};
use crate::parse_end::ParseEnd;
use crate::type_names::TypeNames;
use crate::words::is_name;
use hs_base::NoMemory;
use hs_constants::{character_value, has_string_value, number_value};
use hs_syntax::{Access, Expr, PostfixOperator, Word, with};
use hs_tokens::{Place, SourceToken, TokenKind};
use std::alloc::Global;

/// What follows a postfix expression and makes another of it (X3.159-1989 3.3.2).
#[derive(Drop)]
pub(crate) enum Suffix {
    Index {
        at: Place,
        index: Expr,
    },
    Call(Vec<Expr>),
    Member {
        access: Access,
        at: Place,
        name: Word,
    },
    Postfix {
        operator: PostfixOperator,
        at: Place,
    },
}

/// Reads a postfix expression (X3.159-1989 3.3.2).
///
/// `postfix = primary { suffix }`
#[cycle(read)]
#[tactic(auto, using(crate::proofs::Stepping::postfix_step, crate::proofs::Stepping::suffixes_end))]
pub(crate) fn postfix<'a>(
    alloc: Global,
    known: &TypeNames,
    tokens: &'a [SourceToken],
) -> Result<(Expr, &'a [SourceToken]), ParseEnd>
    ensures read { Gives (λ x. (view x.0, x.1.now)) result (postfix_at known.now tokens.now) }
    ensures shorter { IfOk result (λ x. length x.1.now < length tokens.now) }
{
    let (start, behind) = primary(alloc, known, tokens)?;
    let mut base = start;
    let mut rest = behind;
    'suffixes: loop {
        match next_suffix(alloc, known, rest) {
            Ok((it, left)) => {
                base = with_suffix(alloc, base, it)?;
                rest = left;
            }
            Err(ParseEnd::NotExpr) => return Ok((base, rest)),
            Err(ParseEnd::NoMemory) => return Err(ParseEnd::NoMemory),
        }
    }
}

/// The expression that the suffix makes of its base.
#[tactic(auto, using(hs_syntax::specs::RowLaws::expressions_seen))]
fn with_suffix(alloc: Global, base: Expr, suffix: Suffix) -> Result<Expr, NoMemory>
    ensures { IfOk result (λ e. view e ≡ applied suffix (view base)) }
{
    let (suffix, base) = with(suffix, Box::new(alloc, base))?;
    Ok(match suffix {
        Suffix::Index { at, index } => Expr::Index {
            base,
            at,
            index: Box::new(alloc, index)?,
        },
        Suffix::Call(arguments) => Expr::Call {
            callee: base,
            arguments,
        },
        Suffix::Member { access, at, name } => Expr::Member {
            base,
            access,
            at,
            name,
        },
        Suffix::Postfix { operator, at } => Expr::Postfix {
            operand: base,
            operator,
            at,
        },
    })
}

/// Reads what follows a postfix expression.
///
/// `suffix = "[" expression "]" | "(" arguments ")" | ("." | "->") identifier | "++" | "--"`
#[cycle(read)]
#[tactic(auto, using(crate::proofs::Stepping::suffix_nothing, crate::proofs::Stepping::suffix_index, crate::proofs::Stepping::suffix_call, crate::proofs::Stepping::suffix_other))]
fn next_suffix<'a>(
    alloc: Global,
    known: &TypeNames,
    tokens: &'a [SourceToken],
) -> Result<(Suffix, &'a [SourceToken]), ParseEnd>
    ensures read { (base : Expression) → Gives (λ x. (applied x.0 base, x.1.now)) result (suffix_at known.now base tokens.now) }
    ensures shorter { IfOk result (λ x. length x.1.now < length tokens.now) }
{
    let Some((source, behind)) = first(tokens) else {
        return Err(ParseEnd::NotExpr);
    };
    let at = place_of(source);
    if is_punctuator(source, b"[") {
        let (index, close) = expression(alloc, known, behind)?;
        let (index, (_, rest)) = with(index, mark(close, b"]"))?;
        return Ok((Suffix::Index { at, index }, rest));
    }
    if is_punctuator(source, b"(") {
        let (arguments, close) = arguments(alloc, known, behind)?;
        let (arguments, (_, rest)) = with(arguments, mark(close, b")"))?;
        return Ok((Suffix::Call(arguments), rest));
    }
    if let Some(access) = access_of(source) {
        let (name, rest) = name(behind)?;
        return Ok((Suffix::Member { access, at, name }, rest));
    }
    let Some(operator) = postfix_of(source) else {
        return Err(ParseEnd::NotExpr);
    };
    Ok((Suffix::Postfix { operator, at }, behind))
}

/// Reads a primary expression (X3.159-1989 3.3.1): a typedef name is not one, a number is an integer of 32 bits, and a
/// character or a literal has a value.
///
/// `primary = identifier | number | character | literal { literal } | "(" expression ")"`
#[cycle(read)]
#[tactic(auto, using(crate::proofs::Stepping::primary_nothing, crate::proofs::Stepping::primary_step, crate::proofs::Stepping::primary_parens))]
fn primary<'a>(
    alloc: Global,
    known: &TypeNames,
    tokens: &'a [SourceToken],
) -> Result<(Expr, &'a [SourceToken]), ParseEnd>
    ensures read { Gives (λ x. (view x.0, x.1.now)) result (primary_at known.now tokens.now) }
    ensures shorter { IfOk result (λ x. length x.1.now < length tokens.now) }
{
    let Some((source, rest)) = first(tokens) else {
        return Err(ParseEnd::NotExpr);
    };
    let text = source.token.text.items();
    match source.token.kind {
        TokenKind::Identifier if is_name(text) && !known.is_known(text) => {
            Ok((Expr::Name(word_of(source)?), rest))
        }
        TokenKind::Number if number_value(text).is_some() => {
            Ok((Expr::Number(word_of(source)?), rest))
        }
        TokenKind::Character if character_value(text).is_some() => {
            Ok((Expr::Character(word_of(source)?), rest))
        }
        TokenKind::Literal if has_string_value(text) => {
            let (others, left) = literals(alloc, rest)?;
            Ok((Expr::Strings(word_of(source)?, others), left))
        }
        TokenKind::Punctuator if is_punctuator(source, b"(") => {
            parens(alloc, known, place_of(source), rest)
        }
        _ => Err(ParseEnd::NotExpr),
    }
}

/// Reads an expression in parentheses, after the first of them (X3.159-1989 3.3.1).
///
/// `expression ")"`
#[cycle(read)]
#[tactic(auto, using(crate::proofs::Stepping::parens_step))]
fn parens<'a>(
    alloc: Global,
    known: &TypeNames,
    at: Place,
    rest: &'a [SourceToken],
) -> Result<(Expr, &'a [SourceToken]), ParseEnd>
    ensures read { Gives (λ x. (view x.0, x.1.now)) result (parens_at known.now at rest.now) }
    ensures shorter { IfOk result (λ x. length x.1.now < length rest.now) }
{
    let (inner, behind) = expression(alloc, known, rest)?;
    let (inner, (_, left)) = with(inner, mark(behind, b")"))?;
    Ok((
        Expr::Parens {
            at,
            inner: Box::new(alloc, inner)?,
        },
        left,
    ))
}

/// Reads the arguments of a call, if any, up to its `)` (X3.159-1989 3.3.2.2).
///
/// `arguments = [ assignment { "," assignment } ]`
#[cycle(read)]
#[tactic(auto, using(crate::proofs::Stepping::some_arguments_none, crate::proofs::Stepping::some_arguments_some))]
fn arguments<'a>(
    alloc: Global,
    known: &TypeNames,
    tokens: &'a [SourceToken],
) -> Result<(Vec<Expr>, &'a [SourceToken]), ParseEnd>
    ensures read { Gives (λ x. (map view x.0.items, x.1.now)) result (some_arguments_at known.now tokens.now) }
    ensures shorter { IfOk result (λ x. length x.1.now ≤ length tokens.now) }
{
    if is_mark_ahead(tokens, b")") {
        return Ok((Vec::new(alloc), tokens));
    }
    // Most calls have one argument.
    let mut its = Vec::with_capacity(alloc, 1)?;
    let (start, behind) = assignment(alloc, known, tokens)?;
    its.push(start)?;
    let mut rest = behind;
    'arguments: while let Some((_, next)) = mark_ahead(rest, b",") {
        let (it, left) = assignment(alloc, known, next)?;
        its.push(it)?;
        rest = left;
    }
    Ok((its, rest))
}
