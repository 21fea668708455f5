//! Parses declarations (X3.159-1989 3.5).

ghost use Rattle.std.specs.Prelude.{◌≡◌, ◌<◌, ◌≤◌, [], ◌∷◌, length, map, IfOk};
ghost use Rattle.hs_syntax.specs.Views.{view_specifier, view_declarator, view_item, view_declaration};
ghost use Rattle.hs_expr_parser.specs.Given.{Gives};
ghost use Rattle.hs_decl_parser.specs.Steps.{item_from, item_at, items_at, declared_at, declaration_at, declarations_at};

use crate::initialisers::start;
use hs_expr_parser::{
    ParseEnd, TypeNames, begins_specifiers, declarator, mark, mark_ahead, specifiers,
};
use hs_syntax::{Decl, Declarator, Item, Specifier, with};
use hs_tokens::SourceToken;
use std::alloc::Global;

/// Reads what a declarator starts with, after it, and puts both together (X3.159-1989 3.5).
///
/// `[ "=" initialiser ]`
#[tactic(auto, using(crate::proofs::Stepping::item_from_step))]
fn item_from<'a>(
    alloc: Global,
    known: &TypeNames,
    declarator: Declarator,
    tokens: &'a [SourceToken],
) -> Result<(Item, &'a [SourceToken]), ParseEnd>
    ensures read { Gives (λ x. (view_item x.0, x.1.now)) result (item_from known.now (view_declarator declarator) tokens.now) }
    ensures shorter { IfOk result (λ x. length x.1.now ≤ length tokens.now) }
{
    let (declarator, (initialiser, rest)) = with(declarator, start(alloc, known, tokens))?;
    Ok((
        Item {
            declarator,
            initialiser,
        },
        rest,
    ))
}

/// Reads a declarator and what it starts with (X3.159-1989 3.5).
///
/// `item = declarator [ "=" initialiser ]`
#[tactic(auto, using(crate::proofs::Stepping::item_step))]
fn item<'a>(
    alloc: Global,
    known: &TypeNames,
    tokens: &'a [SourceToken],
) -> Result<(Item, &'a [SourceToken]), ParseEnd>
    ensures read { Gives (λ x. (view_item x.0, x.1.now)) result (item_at known.now tokens.now) }
    ensures shorter { IfOk result (λ x. length x.1.now ≤ length tokens.now) }
{
    let (declarator, behind) = declarator(alloc, known, false, tokens)?;
    item_from(alloc, known, declarator, behind)
}

/// Reads the other declarators of a declaration, after the first of them: each follows a comma (X3.159-1989 3.5).
///
/// `{ "," item }`
#[tactic(auto, using(crate::proofs::Stepping::items_end))]
fn items<'a>(
    alloc: Global,
    known: &TypeNames,
    start: Item,
    tokens: &'a [SourceToken],
) -> Result<(Vec<Item>, &'a [SourceToken]), ParseEnd>
    ensures read { Gives (λ x. (map view_item x.0.items, x.1.now)) result (items_at known.now (view_item start ∷ []) tokens.now) }
    ensures shorter { IfOk result (λ x. length x.1.now ≤ length tokens.now) }
{
    let mut its = Vec::with_capacity(alloc, 1)?;
    its.push(start)?;
    let mut rest = tokens;
    'items: while let Some((_, next)) = mark_ahead(rest, b",") {
        let (it, left) = item(alloc, known, next)?;
        its.push(it)?;
        rest = left;
    }
    Ok((its, rest))
}

/// Reads the rest of a declaration after its first declarator (X3.159-1989 3.5).
///
/// `[ "=" initialiser ] { "," item } ";"`
#[tactic(auto, using(crate::proofs::Stepping::declared_step, hs_syntax::specs::RowLaws::specification_seen))]
pub(crate) fn declared<'a>(
    alloc: Global,
    known: &TypeNames,
    specifiers: Vec<Specifier>,
    declarator: Declarator,
    tokens: &'a [SourceToken],
) -> Result<(Decl, &'a [SourceToken]), ParseEnd>
    ensures read { Gives (λ x. (view_declaration x.0, x.1.now)) result
        (declared_at known.now (map view_specifier specifiers.items) (view_declarator declarator) tokens.now) }
    ensures shorter { IfOk result (λ x. length x.1.now < length tokens.now) }
{
    let (specifiers, (start, behind)) = with(
        specifiers,
        item_from(alloc, known, declarator, tokens),
    )?;
    let (specifiers, (items, end)) = with(specifiers, items(alloc, known, start, behind))?;
    let ((specifiers, items), (_, rest)) = with((specifiers, items), mark(end, b";"))?;
    Ok((Decl { specifiers, items }, rest))
}

/// Reads a declaration (X3.159-1989 3.5).
///
/// `declaration = specifiers [ item { "," item } ] ";"`
#[tactic(auto, using(crate::proofs::Stepping::declaration_step, crate::proofs::Stepping::declaration_bare, crate::proofs::Stepping::declaration_declares, hs_syntax::specs::RowLaws::specification_seen))]
fn declaration<'a>(
    alloc: Global,
    known: &TypeNames,
    tokens: &'a [SourceToken],
) -> Result<(Decl, &'a [SourceToken]), ParseEnd>
    ensures read { Gives (λ x. (view_declaration x.0, x.1.now)) result (declaration_at known.now tokens.now) }
    ensures shorter { IfOk result (λ x. length x.1.now < length tokens.now) }
{
    let (specifiers, behind) = specifiers(alloc, known, tokens)?;
    if let Some((_, rest)) = mark_ahead(behind, b";") {
        return Ok((
            Decl {
                specifiers,
                items: Vec::new(alloc),
            },
            rest,
        ));
    }
    let (specifiers, (declarator, left)) = with(
        specifiers,
        declarator(alloc, known, false, behind),
    )?;
    declared(alloc, known, specifiers, declarator, left)
}

/// Reads declarations up to a token that begins none (X3.159-1989 3.6.2).
///
/// `{ declaration }`
#[tactic(auto, using(crate::proofs::Stepping::declarations_end))]
pub(crate) fn declarations<'a>(
    alloc: Global,
    known: &TypeNames,
    tokens: &'a [SourceToken],
) -> Result<(Vec<Decl>, &'a [SourceToken]), ParseEnd>
    ensures read { Gives (λ x. (map view_declaration x.0.items, x.1.now)) result (declarations_at known.now [] tokens.now) }
    ensures shorter { IfOk result (λ x. length x.1.now ≤ length tokens.now) }
{
    let mut its = Vec::new(alloc);
    let mut rest = tokens;
    'declarations: while begins_specifiers(known, rest) {
        let (it, left) = declaration(alloc, known, rest)?;
        its.push(it)?;
        rest = left;
    }
    Ok((its, rest))
}
