//! The words of inline traps, which are dropped (own).

ghost use Rattle.std.specs.Prelude.{◌≡◌, map};
ghost use Rattle.hs_typer.specs.Steps.{Steps};
ghost use Rattle.hs_initialisers.specs.InlineWords.{inline_word, inline_in_list, inline_list, inline_words};
ghost use Rattle.hs_syntax.specs.StatementViews.{initialisers_from};
ghost use Rattle.hs_syntax.specs.Views.{view, view_initialiser};

use hs_expressions::value;
use hs_syntax::{Expr, Initialiser};
use hs_typer::{TypeError, Typer, constant_of};
use std::alloc::Global;

/// One word: an integral constant.
fn inline_word(alloc: Global, typer: &mut Typer, e: &Expr) -> Result<(), TypeError>
    ensures { Steps (λ it. it) typer.new (inline_word (view e.now) typer.old) result }
{
    let its = value(alloc, typer, e)?;
    constant_of(&typer.types, &its)?;
    Ok(())
}

/// One word of a list, in which there is no list.
fn inline_in_list(alloc: Global, typer: &mut Typer, it: &Initialiser) -> Result<(), TypeError>
    ensures { Steps (λ it. it) typer.new (inline_in_list (view_initialiser it.now) typer.old) result }
{
    match it {
        Initialiser::Value(e) => inline_word(alloc, typer, e),
        Initialiser::List { at, .. } => Err(TypeError::Untyped(*at)),
    }
}

/// All words of a list.
fn inline_list(alloc: Global, typer: &mut Typer, its: &[Initialiser]) -> Result<(), TypeError>
    ensures { Steps (λ it. it) typer.new (inline_list (initialisers_from (map view_initialiser its.now)) typer.old) result }
{
    'its: for it in its {
        inline_in_list(alloc, typer, it)?;
    }
    Ok(())
}

/// Checks the words of an inline trap after a prototype: an integral constant (3.4), or a list of them in braces.
///
/// Example: `0xA9FF` and `{0x303C, 1}`; `{{1}}` is refused at its inner brace.
#[tactic(auto, using(hs_syntax::specs::StatementLaws::initialisers_seen))]
pub fn inline_words(alloc: Global, typer: &mut Typer, it: &Initialiser) -> Result<(), TypeError>
    ensures { Steps (λ it. it) typer.new (inline_words (view_initialiser it.now) typer.old) result }
{
    match it {
        Initialiser::Value(e) => inline_word(alloc, typer, e),
        Initialiser::List { values, .. } => inline_list(alloc, typer, values),
    }
}
