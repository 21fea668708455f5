//! Parses functions and external declarations (X3.159-1989 3.7).

ghost use Rattle.std.specs.Prelude.{◌≡◌, ◌<◌, length, map, IfOk};
ghost use Rattle.hs_syntax.specs.Views.{view_specifier, view_declarator, view_external};
ghost use Rattle.hs_expr_parser.specs.Given.{Gives};
ghost use Rattle.hs_decl_parser.specs.Steps.{function_at, external_from, specified_at, external_at};

use crate::declarations::declared;
use crate::statements::block;
use hs_expr_parser::{
    ParseEnd, TypeNames, begins_specifiers, declarator, is_mark_ahead, mark_ahead, specifiers,
};
use hs_syntax::{Decl, Declarator, External, Specifier, with};
use hs_tokens::SourceToken;
use std::alloc::Global;

/// Reads a function after its declarator (X3.159-1989 3.7.1).
///
/// `block`
#[tactic(auto, using(crate::proofs::Stepping::function_step, hs_syntax::specs::RowLaws::specification_seen))]
fn function<'a>(
    alloc: Global,
    known: &TypeNames,
    specifiers: Vec<Specifier>,
    declarator: Declarator,
    tokens: &'a [SourceToken],
) -> Result<(External, &'a [SourceToken]), ParseEnd>
    ensures read { Gives (λ x. (view_external x.0, x.1.now)) result
        (function_at known.now (map view_specifier specifiers.items) (view_declarator declarator) tokens.now) }
    ensures shorter { IfOk result (λ x. length x.1.now < length tokens.now) }
{
    let ((specifiers, declarator), (body, rest)) = with(
        (specifiers, declarator),
        block(alloc, known, tokens),
    )?;
    Ok((
        External::Function {
            specifiers,
            declarator,
            body,
        },
        rest,
    ))
}

/// Reads a function or a declaration after its first declarator: a `{` begins a function's body (X3.159-1989 3.7).
///
/// `block | [ "=" initialiser ] { "," item } ";"`
#[tactic(auto, using(crate::proofs::Stepping::external_function, crate::proofs::Stepping::external_declaration))]
fn external_from<'a>(
    alloc: Global,
    known: &TypeNames,
    specifiers: Vec<Specifier>,
    declarator: Declarator,
    tokens: &'a [SourceToken],
) -> Result<(External, &'a [SourceToken]), ParseEnd>
    ensures read { Gives (λ x. (view_external x.0, x.1.now)) result
        (external_from known.now (map view_specifier specifiers.items) (view_declarator declarator) tokens.now) }
    ensures shorter { IfOk result (λ x. length x.1.now < length tokens.now) }
{
    if is_mark_ahead(tokens, b"{") {
        return function(alloc, known, specifiers, declarator, tokens);
    }
    let (it, rest) = declared(alloc, known, specifiers, declarator, tokens)?;
    Ok((External::Declaration(it), rest))
}

/// Reads an external declaration that begins with specifiers (X3.159-1989 3.7).
///
/// `specifiers ( ";" | declarator ( block | [ "=" initialiser ] { "," item } ";" ) )`
#[tactic(auto, using(crate::proofs::Stepping::specified_step, crate::proofs::Stepping::specified_bare, crate::proofs::Stepping::specified_declares, hs_syntax::specs::RowLaws::specification_seen))]
fn specified<'a>(
    alloc: Global,
    known: &TypeNames,
    tokens: &'a [SourceToken],
) -> Result<(External, &'a [SourceToken]), ParseEnd>
    ensures read { Gives (λ x. (view_external x.0, x.1.now)) result (specified_at known.now tokens.now) }
    ensures shorter { IfOk result (λ x. length x.1.now < length tokens.now) }
{
    let (specifiers, behind) = specifiers(alloc, known, tokens)?;
    if let Some((_, rest)) = mark_ahead(behind, b";") {
        return Ok((
            External::Declaration(Decl {
                specifiers,
                items: Vec::new(alloc),
            }),
            rest,
        ));
    }
    let (specifiers, (declarator, left)) = with(
        specifiers,
        declarator(alloc, known, false, behind),
    )?;
    external_from(alloc, known, specifiers, declarator, left)
}

/// Reads an external declaration (X3.159-1989 3.7). One without specifiers is a function.
///
/// `external = [specifiers] declarator block | declaration`
#[tactic(auto, using(crate::proofs::Stepping::external_specified, crate::proofs::Stepping::external_plain))]
pub(crate) fn external<'a>(
    alloc: Global,
    known: &TypeNames,
    tokens: &'a [SourceToken],
) -> Result<(External, &'a [SourceToken]), ParseEnd>
    ensures read { Gives (λ x. (view_external x.0, x.1.now)) result (external_at known.now tokens.now) }
    ensures shorter { IfOk result (λ x. length x.1.now < length tokens.now) }
{
    if begins_specifiers(known, tokens) {
        return specified(alloc, known, tokens);
    }
    let (declarator, behind) = declarator(alloc, known, false, tokens)?;
    function(alloc, known, Vec::new(alloc), declarator, behind)
}
