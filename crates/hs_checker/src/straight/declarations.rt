//! Reads the declarations of a straight program.

ghost use Rattle.std.specs.Prelude.{◌≡◌, ◌≤◌, ◌+◌, length, IfOk, IfSome, IfNone};
ghost use Rattle.hs_base.specs.Options.{Seen};
ghost use Rattle.hs_checker.specs.Straight.Reading.{second_star_at, kind_at, declaration_at};
ghost use Rattle.hs_checker.specs.Straight.Rows.{AreDeclarations, NoDeclarations};

use crate::straight::marks::{first, is_at, mark};
use crate::straight::names::is_fine_name;
use hs_base::{Bytes, NoMemory};
use hs_tokens::SourceToken;
use hs_tree::straight::{Kind, Variable};
use std::alloc::Global;

/// Reads the second star of a handle, if it stands.
#[tactic(auto, unfolding(crate::specs::Straight::Reading::second_star_at))]
fn second_star(tokens: &[SourceToken]) -> Option<(Kind, &[SourceToken])>
    ensures { Seen (λ x. (x.0, x.1.now)) result (second_star_at tokens.now) }
{
    if is_at(b"*", tokens) {
        let (_, rest) = mark(b"*", tokens)?;
        Some((Kind::Handle, rest))
    } else {
        Some((Kind::Pointer, tokens))
    }
}

/// Reads the stars of a declaration.
#[tactic(auto, unfolding(crate::specs::Straight::Reading::kind_at))]
fn kind(tokens: &[SourceToken]) -> Option<(Kind, &[SourceToken])>
    ensures { Seen (λ x. (x.0, x.1.now)) result (kind_at tokens.now) }
{
    if is_at(b"*", tokens) {
        let (_, rest) = mark(b"*", tokens)?;
        second_star(rest)
    } else {
        Some((Kind::Letter, tokens))
    }
}

/// Reads a declaration and its semicolon: the kind and the name of its variable.
#[tactic(auto, unfolding(crate::specs::Straight::Reading::declaration_at))]
fn declaration<'a>(
    earlier: &[Variable],
    tokens: &'a [SourceToken],
) -> Option<(Kind, &'a [u8], &'a [SourceToken])>
    ensures { Seen (λ x. (record { kind = x.0; name = x.1.now }, x.2.now)) result (declaration_at earlier.now tokens.now) }
{
    let (_, rest) = mark(b"char", tokens)?;
    let (kind, rest) = kind(rest)?;
    let (token, rest) = first(rest)?;
    let (_, rest) = mark(b";", rest)?;
    let name = token.text.items();
    if is_fine_name(earlier, name) {
        Some((kind, name, rest))
    } else {
        None
    }
}

/// Reads all declarations: the variables in the order of the text, and the tokens after them. `None` if a declaration
/// begins and does not go on as one, or may not follow those before it.
pub(crate) fn declarations(
    alloc: Global,
    tokens: &[SourceToken],
) -> Result<Option<(Vec<Variable>, &[SourceToken])>, NoMemory>
    ensures found { IfOk result (λ read. IfSome read (λ x. AreDeclarations tokens.now x.0.items x.1.now)) }
    ensures few { IfOk result (λ read. IfSome read (λ x. length x.0.items ≤ length tokens.now)) }
    ensures none { IfOk result (λ read. IfNone read (NoDeclarations tokens.now)) }
{
    let mut variables = Vec::new(alloc);
    let mut rest = tokens;
    'all: while is_at(b"char", rest) {
        let Some((kind, name, after)) = declaration(&variables, rest) else {
            return Ok(None);
        };
        let name = Bytes::from_vec(Vec::from_slice(alloc, name)?);
        variables.push(Variable { kind, name })?;
        rest = after;
    }
    Ok(Some((variables, rest)))
}
