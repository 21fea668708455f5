//! The phrases of types and declarators that declarations hold, with the parser of conditional expressions that they take.

ghost use Rattle.std.specs.Prelude.{◌<◌, ◌≤◌, length, map, IfOk};
ghost use Rattle.hs_syntax.specs.Views.{view_declarator, view_specifier};
ghost use Rattle.hs_expr_parser.specs.Given.{Gives};
ghost use Rattle.hs_expr_parser.specs.Steps.{declarator_at, some_specifiers_at};

use crate::expressions::conditional_taken;
use crate::parse_end::ParseEnd;
use crate::type_names::TypeNames;
use crate::{declarators, types};
use hs_syntax::{Declarator, Specifier};
use hs_tokens::SourceToken;
use std::alloc::Global;

/// Reads specifiers, at least one, up to a token that begins none (X3.159-1989 3.5). A typedef name is one only if
/// no type specifier stands before it.
///
/// `specifiers = specifier { specifier }`
///
/// Example: of `unsigned int x`, it reads `unsigned int`.
pub fn specifiers<'a>(
    alloc: Global,
    known: &TypeNames,
    tokens: &'a [SourceToken],
) -> Result<(Vec<Specifier>, &'a [SourceToken]), ParseEnd>
    ensures read { Gives (λ x. (map view_specifier x.0.items, x.1.now)) result (some_specifiers_at known.now tokens.now) }
    ensures shorter { IfOk result (λ x. length x.1.now < length tokens.now) }
{
    let conditional = |inner: &[SourceToken]| conditional_taken(alloc, known, inner);
    types::specifiers(alloc, known, &conditional, tokens)
}

/// Reads a declarator (X3.159-1989 3.5.4), or, in a parameter or a type name, one that may name nothing (3.5.5).
///
/// `declarator = { "*" | dropped } direct`, where `direct` is a name or a declarator in parentheses, and what follows it
///
/// Example: of `*p[4];`, it reads `*p[4]`: an array of 4 pointers.
pub fn declarator<'a>(
    alloc: Global,
    known: &TypeNames,
    inner: bool,
    tokens: &'a [SourceToken],
) -> Result<(Declarator, &'a [SourceToken]), ParseEnd>
    ensures read { Gives (λ x. (view_declarator x.0, x.1.now)) result (declarator_at known.now inner tokens.now) }
    ensures shorter { IfOk result (λ x. length x.1.now ≤ length tokens.now) }
{
    let conditional = |within: &[SourceToken]| conditional_taken(alloc, known, within);
    declarators::declarator(alloc, known, &conditional, inner, tokens)
}
