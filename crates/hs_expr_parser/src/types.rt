//! Parses specifiers and type names (X3.159-1989 3.5.1 to 3.5.3 and 3.5.5).

ghost use Rattle.std.specs.Prelude.{◌≡◌, ◌||◌, ◌<◌, ◌≤◌, [], length, map, IfOk};
ghost use Rattle.hs_syntax.specs.Phrases.{is_type};
ghost use Rattle.hs_syntax.specs.RowViews.{view_member, view_constant};
ghost use Rattle.hs_syntax.specs.Views.{view_type, view_specifier};
ghost use Rattle.hs_expr_parser.specs.Conditionals.{MayAsk, ReadsConditionals};
ghost use Rattle.hs_expr_parser.specs.Given.{Gives};
ghost use Rattle.hs_expr_parser.specs.Steps.{type_at, some_specifiers_at, specifier_at, struct_at, enum_at, members_at, member_at, constants_at, constant_at};

use crate::ahead::{
    first, is_keyword, is_mark_ahead, mark, mark_ahead, name, place_of, tag, word_of,
};
use crate::conditionals::conditional_by;
use crate::declarators::{declarator, declarators};
use crate::named::is_named;
use crate::operators::{basic_of, dropped_of, storage_of};
use crate::parse_end::ParseEnd;
use crate::type_names::TypeNames;
use crate::words::{begins_specifier, is_type_name};
use hs_syntax::{Constant, Expr, Member, Specifier, TypeName, Word, with};
use hs_tokens::{Place, SourceToken};
use std::alloc::Global;

/// Reads a type name (X3.159-1989 3.5.5).
///
/// `type-name = specifiers [ abstract ]`
#[tactic(auto, using(crate::proofs::Stepping::type_step, hs_syntax::specs::RowLaws::specification_seen))]
pub(crate) fn type_name<'a, F: Fn(&[SourceToken]) -> Result<(Expr, usize), ParseEnd>>(
    alloc: Global,
    known: &TypeNames,
    conditional: &F,
    tokens: &'a [SourceToken],
) -> Result<(TypeName, &'a [SourceToken]), ParseEnd>
    requires asks { MayAsk (F.pre conditional.now) (length tokens.now) }
    requires reads { ReadsConditionals (F.post conditional.now) known.now (length tokens.now) }
    ensures read { Gives (λ x. (view_type x.0, x.1.now)) result (type_at known.now tokens.now) }
    ensures shorter { IfOk result (λ x. length x.1.now < length tokens.now) }
{
    let (specifiers, behind) = specifiers(alloc, known, conditional, tokens)?;
    let (specifiers, (declarator, rest)) = with(
        specifiers,
        declarator(alloc, known, conditional, true, behind),
    )?;
    if is_named(&declarator) {
        return Err(ParseEnd::NotExpr);
    }
    Ok((
        TypeName {
            specifiers,
            declarator,
        },
        rest,
    ))
}

/// Reads specifiers, at least one, up to a token that begins none (X3.159-1989 3.5). A typedef name is one only if
/// no type specifier stands before it.
///
/// `specifiers = specifier { specifier }`
///
/// Example: of `unsigned int x`, it reads `unsigned int`.
#[cycle(types)]
#[tactic(auto, using(crate::proofs::Stepping::some_specifiers_nothing, crate::proofs::Stepping::some_specifiers_none, crate::proofs::Stepping::some_specifiers_some, crate::proofs::Stepping::specifiers_nothing, crate::proofs::Stepping::specifiers_end))]
pub(crate) fn specifiers<'a, F: Fn(&[SourceToken]) -> Result<(Expr, usize), ParseEnd>>(
    alloc: Global,
    known: &TypeNames,
    conditional: &F,
    tokens: &'a [SourceToken],
) -> Result<(Vec<Specifier>, &'a [SourceToken]), ParseEnd>
    requires asks { MayAsk (F.pre conditional.now) (length tokens.now) }
    requires reads { ReadsConditionals (F.post conditional.now) known.now (length tokens.now) }
    ensures read { Gives (λ x. (map view_specifier x.0.items, x.1.now)) result (some_specifiers_at known.now tokens.now) }
    ensures shorter { IfOk result (λ x. length x.1.now < length tokens.now) }
{
    let Some((source, behind)) = first(tokens) else {
        return Err(ParseEnd::NotExpr);
    };
    if !begins_specifier(known, false, source) {
        return Err(ParseEnd::NotExpr);
    }
    let (start, left) = specifier(alloc, known, conditional, source, behind)?;
    let mut its = Vec::with_capacity(alloc, 1)?;
    let mut typed = is_typed(false, &start);
    its.push(start)?;
    let mut rest = left;
    'specifiers: while let Some((source, behind)) = first(rest)
        && begins_specifier(known, typed, source)
    {
        let (it, left) = specifier(alloc, known, conditional, source, behind)?;
        typed = is_typed(typed, &it);
        its.push(it)?;
        rest = left;
    }
    Ok((its, rest))
}

/// Whether it is a type specifier (X3.159-1989 3.5.2), or one stands before it.
fn is_typed(before: bool, it: &Specifier) -> bool
    ensures { result ≡ (before || is_type (view_specifier it.now)) }
{
    before || !matches!(it, Specifier::Storage(_, _) | Specifier::Dropped(_, _))
}

/// Reads a specifier that begins with that token (X3.159-1989 3.5.1 to 3.5.3).
///
/// `specifier = storage | dropped | basic | struct | enum | typedef-name`
#[cycle(types)]
#[tactic(auto, using(crate::proofs::Stepping::specifier_storage, crate::proofs::Stepping::specifier_dropped, crate::proofs::Stepping::specifier_basic, crate::proofs::Stepping::specifier_struct, crate::proofs::Stepping::specifier_enum, crate::proofs::Stepping::specifier_named))]
fn specifier<'a, F: Fn(&[SourceToken]) -> Result<(Expr, usize), ParseEnd>>(
    alloc: Global,
    known: &TypeNames,
    conditional: &F,
    source: &SourceToken,
    rest: &'a [SourceToken],
) -> Result<(Specifier, &'a [SourceToken]), ParseEnd>
    requires asks { MayAsk (F.pre conditional.now) (length rest.now) }
    requires reads { ReadsConditionals (F.post conditional.now) known.now (length rest.now) }
    ensures read { Gives (λ x. (view_specifier x.0, x.1.now)) result (specifier_at known.now source.now rest.now) }
    ensures shorter { IfOk result (λ x. length x.1.now ≤ length rest.now) }
{
    let at = place_of(source);
    if let Some(it) = storage_of(source) {
        return Ok((Specifier::Storage(it, at), rest));
    }
    if let Some(it) = dropped_of(source) {
        return Ok((Specifier::Dropped(it, at), rest));
    }
    if let Some(it) = basic_of(source) {
        return Ok((Specifier::Basic(it, at), rest));
    }
    if is_keyword(source, b"struct") {
        let (tag, behind) = tag(rest)?;
        return struct_specifier(alloc, known, conditional, at, tag, behind);
    }
    if is_keyword(source, b"enum") {
        let (tag, behind) = tag(rest)?;
        return enum_specifier(alloc, known, conditional, at, tag, behind);
    }
    if !is_type_name(known, source.token.text.items()) {
        return Err(ParseEnd::NotExpr);
    }
    Ok((Specifier::Named(word_of(source)?), rest))
}

/// Reads the rest of a struct after its tag, if it has one: its members, or nothing (X3.159-1989 3.5.2.1, 3.5.2.3).
///
/// `struct = "struct" [identifier] "{" member { member } "}" | "struct" identifier`
#[cycle(types)]
#[tactic(auto, using(crate::proofs::Stepping::struct_body, crate::proofs::Stepping::struct_tag, hs_syntax::specs::RowLaws::members_seen))]
fn struct_specifier<'a, F: Fn(&[SourceToken]) -> Result<(Expr, usize), ParseEnd>>(
    alloc: Global,
    known: &TypeNames,
    conditional: &F,
    at: Place,
    tag: Option<Word>,
    rest: &'a [SourceToken],
) -> Result<(Specifier, &'a [SourceToken]), ParseEnd>
    requires asks { MayAsk (F.pre conditional.now) (length rest.now) }
    requires reads { ReadsConditionals (F.post conditional.now) known.now (length rest.now) }
    ensures read { Gives (λ x. (view_specifier x.0, x.1.now)) result (struct_at known.now at tag rest.now) }
    ensures shorter { IfOk result (λ x. length x.1.now ≤ length rest.now) }
{
    let Some((brace, behind)) = mark_ahead(rest, b"{") else {
        let Some(tag) = tag else {
            return Err(ParseEnd::NotExpr);
        };
        return Ok((Specifier::StructTag { at, tag }, rest));
    };
    let (members, close) = members(alloc, known, conditional, behind)?;
    let (_, left) = mark(close, b"}")?;
    Ok((
        Specifier::Struct {
            at,
            tag,
            brace,
            members,
        },
        left,
    ))
}

/// Reads the members of a struct, at least one, up to a `}` (X3.159-1989 3.5.2.1).
///
/// `member { member }`
#[cycle(types)]
#[tactic(auto, using(crate::proofs::Stepping::members_step))]
fn members<'a, F: Fn(&[SourceToken]) -> Result<(Expr, usize), ParseEnd>>(
    alloc: Global,
    known: &TypeNames,
    conditional: &F,
    tokens: &'a [SourceToken],
) -> Result<(Vec<Member>, &'a [SourceToken]), ParseEnd>
    requires asks { MayAsk (F.pre conditional.now) (length tokens.now) }
    requires reads { ReadsConditionals (F.post conditional.now) known.now (length tokens.now) }
    ensures read { Gives (λ x. (map view_member x.0.items, x.1.now)) result (members_at known.now [] tokens.now) }
    ensures shorter { IfOk result (λ x. length x.1.now < length tokens.now) }
{
    let mut its = Vec::new(alloc);
    let (start, behind) = member(alloc, known, conditional, tokens)?;
    its.push(start)?;
    let mut rest = behind;
    'members: while !is_mark_ahead(rest, b"}") {
        let (it, left) = member(alloc, known, conditional, rest)?;
        its.push(it)?;
        rest = left;
    }
    Ok((its, rest))
}

/// Reads members that are declared together (X3.159-1989 3.5.2.1).
///
/// `member = specifiers declarator { "," declarator } ";"`
#[cycle(types)]
#[tactic(auto, using(crate::proofs::Stepping::member_step, crate::proofs::Seen::member_seen))]
fn member<'a, F: Fn(&[SourceToken]) -> Result<(Expr, usize), ParseEnd>>(
    alloc: Global,
    known: &TypeNames,
    conditional: &F,
    tokens: &'a [SourceToken],
) -> Result<(Member, &'a [SourceToken]), ParseEnd>
    requires asks { MayAsk (F.pre conditional.now) (length tokens.now) }
    requires reads { ReadsConditionals (F.post conditional.now) known.now (length tokens.now) }
    ensures read { Gives (λ x. (view_member x.0, x.1.now)) result (member_at known.now tokens.now) }
    ensures shorter { IfOk result (λ x. length x.1.now < length tokens.now) }
{
    let (specifiers, behind) = specifiers(alloc, known, conditional, tokens)?;
    let (specifiers, (declarators, end)) = with(
        specifiers,
        declarators(alloc, known, conditional, behind),
    )?;
    let ((specifiers, declarators), (_, rest)) = with((specifiers, declarators), mark(end, b";"))?;
    Ok((
        Member {
            specifiers,
            declarators,
        },
        rest,
    ))
}

/// Reads the rest of an enumeration after its tag, if it has one: its constants, or nothing (X3.159-1989 3.5.2.2,
/// 3.5.2.3).
///
/// `enum = "enum" [identifier] "{" constant { "," constant } [","] "}" | "enum" identifier`
#[tactic(auto, using(crate::proofs::Stepping::enum_body, crate::proofs::Stepping::enum_tag, hs_syntax::specs::RowLaws::constants_seen))]
fn enum_specifier<'a, F: Fn(&[SourceToken]) -> Result<(Expr, usize), ParseEnd>>(
    alloc: Global,
    known: &TypeNames,
    conditional: &F,
    at: Place,
    tag: Option<Word>,
    rest: &'a [SourceToken],
) -> Result<(Specifier, &'a [SourceToken]), ParseEnd>
    requires asks { MayAsk (F.pre conditional.now) (length rest.now) }
    requires reads { ReadsConditionals (F.post conditional.now) known.now (length rest.now) }
    ensures read { Gives (λ x. (view_specifier x.0, x.1.now)) result (enum_at known.now at tag rest.now) }
    ensures shorter { IfOk result (λ x. length x.1.now ≤ length rest.now) }
{
    let Some((brace, behind)) = mark_ahead(rest, b"{") else {
        let Some(tag) = tag else {
            return Err(ParseEnd::NotExpr);
        };
        return Ok((Specifier::EnumTag { at, tag }, rest));
    };
    let ((constants, comma), close) = constants(alloc, known, conditional, behind)?;
    let (_, left) = mark(close, b"}")?;
    Ok((
        Specifier::Enum {
            at,
            tag,
            brace,
            constants,
            comma,
        },
        left,
    ))
}

/// Reads enumeration constants, at least one, up to a `}`, and whether a comma follows the last one
/// (X3.159-1989 3.5.2.2; the last comma is own).
///
/// `constant { "," constant } [","]`
#[tactic(auto, using(crate::proofs::Stepping::constants_step))]
fn constants<'a, F: Fn(&[SourceToken]) -> Result<(Expr, usize), ParseEnd>>(
    alloc: Global,
    known: &TypeNames,
    conditional: &F,
    tokens: &'a [SourceToken],
) -> Result<((Vec<Constant>, bool), &'a [SourceToken]), ParseEnd>
    requires asks { MayAsk (F.pre conditional.now) (length tokens.now) }
    requires reads { ReadsConditionals (F.post conditional.now) known.now (length tokens.now) }
    ensures read { Gives (λ x. ((map view_constant x.0.0.items, x.0.1), x.1.now)) result (constants_at known.now [] tokens.now) }
    ensures shorter { IfOk result (λ x. length x.1.now < length tokens.now) }
{
    let mut its = Vec::new(alloc);
    let (start, behind) = constant(alloc, known, conditional, tokens)?;
    its.push(start)?;
    let mut rest = behind;
    'constants: while let Some((_, next)) = mark_ahead(rest, b",") {
        if is_mark_ahead(next, b"}") {
            return Ok(((its, true), next));
        }
        let (it, left) = constant(alloc, known, conditional, next)?;
        its.push(it)?;
        rest = left;
    }
    Ok(((its, false), rest))
}

/// Reads an enumeration constant, with or without its value (X3.159-1989 3.5.2.2).
///
/// `constant = identifier [ "=" conditional ]`
#[tactic(auto, using(crate::proofs::Stepping::constant_step))]
fn constant<'a, F: Fn(&[SourceToken]) -> Result<(Expr, usize), ParseEnd>>(
    alloc: Global,
    known: &TypeNames,
    conditional: &F,
    tokens: &'a [SourceToken],
) -> Result<(Constant, &'a [SourceToken]), ParseEnd>
    requires asks { MayAsk (F.pre conditional.now) (length tokens.now) }
    requires reads { ReadsConditionals (F.post conditional.now) known.now (length tokens.now) }
    ensures read { Gives (λ x. (view_constant x.0, x.1.now)) result (constant_at known.now tokens.now) }
    ensures shorter { IfOk result (λ x. length x.1.now < length tokens.now) }
{
    let (name, behind) = name(tokens)?;
    let Some((_, next)) = mark_ahead(behind, b"=") else {
        return Ok((Constant::Plain(name), behind));
    };
    let (value, rest) = conditional_by(known, conditional, next)?;
    Ok((
        Constant::Valued {
            name,
            value: Box::new(alloc, value)?,
        },
        rest,
    ))
}
