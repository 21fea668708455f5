//! Spells declarations.

ghost use Rattle.std.specs.Prelude.{◌≡◌, List, ℕ, Bool, ◌∷◌, [], map, option_map};
ghost use Rattle.hs_spell.specs.Appends.{Appends};
ghost use Rattle.hs_syntax.specs.Grammar.{initialiser_form, initialisers_form, start_form, items_form, declaration_form, declarations_form};
ghost use Rattle.hs_syntax.specs.StatementViews.{initialisers_from};
ghost use Rattle.hs_syntax.specs.Views.{view_initialiser, view_item, view_declaration};

use crate::expressions::{declarator, expression, specifiers};
use crate::pieces::{comma, mark, mark_at};
use hs_base::NoMemory;
use hs_syntax::{Decl, Initialiser, Item};
use hs_tokens::Token;
use std::alloc::Global;

/// Appends an initialiser.
#[cycle(spell_initialiser)]
fn initialiser(alloc: Global, tokens: &mut Vec<Token>, it: &Initialiser) -> Result<(), NoMemory>
    ensures { (known : List (List ℕ)) → Appends result tokens.old.items tokens.new.items
        (initialiser_form known (view_initialiser it.now)) }
{
    match it {
        Initialiser::Value(e) => {
            expression(alloc, tokens, e)?;
            Ok(())
        }
        Initialiser::List {
            at,
            values,
            comma: stands,
        } => {
            mark_at(alloc, tokens, *at, "{")?;
            initialisers(alloc, tokens, values)?;
            comma(alloc, tokens, *stands)?;
            mark(alloc, tokens, "}")
        }
    }
}

/// Appends the initialisers of a list.
#[cycle(spell_initialiser)]
fn initialisers(alloc: Global, tokens: &mut Vec<Token>, its: &[Initialiser]) -> Result<(), NoMemory>
    ensures { (known : List (List ℕ)) → Appends result tokens.old.items tokens.new.items
        (initialisers_form known (initialisers_from (map view_initialiser its.now))) }
{
    let mut left = its.len();
    for it in its {
        initialiser(alloc, tokens, it)?;
        left -= 1;
        comma(alloc, tokens, left > 0)?;
    }
    Ok(())
}

/// Appends what a variable starts with.
fn start(alloc: Global, tokens: &mut Vec<Token>, it: &Option<Initialiser>) -> Result<(), NoMemory>
    ensures { (known : List (List ℕ)) → Appends result tokens.old.items tokens.new.items
        (start_form known (option_map view_initialiser it.now)) }
{
    match it {
        None => Ok(()),
        Some(value) => {
            mark(alloc, tokens, "=")?;
            initialiser(alloc, tokens, value)?;
            Ok(())
        }
    }
}

/// Appends an item of a declaration.
fn item(alloc: Global, tokens: &mut Vec<Token>, it: &Item) -> Result<(), NoMemory>
    ensures { (known : List (List ℕ)) → Appends result tokens.old.items tokens.new.items
        (items_form known (view_item it.now ∷ [])) }
{
    declarator(alloc, tokens, &it.declarator)?;
    start(alloc, tokens, &it.initialiser)?;
    Ok(())
}

/// Appends the items of a declaration.
fn items(alloc: Global, tokens: &mut Vec<Token>, its: &[Item]) -> Result<(), NoMemory>
    ensures { (known : List (List ℕ)) → Appends result tokens.old.items tokens.new.items
        (items_form known (map view_item its.now)) }
{
    let mut left = its.len();
    for it in its {
        item(alloc, tokens, it)?;
        left -= 1;
        comma(alloc, tokens, left > 0)?;
    }
    Ok(())
}

/// Appends a declaration.
pub(crate) fn declaration(alloc: Global, tokens: &mut Vec<Token>, it: &Decl) -> Result<(), NoMemory>
    ensures { (known : List (List ℕ)) → Appends result tokens.old.items tokens.new.items
        (declaration_form known (view_declaration it.now)) }
{
    specifiers(alloc, tokens, &it.specifiers)?;
    items(alloc, tokens, &it.items)?;
    mark(alloc, tokens, ";")
}

/// Appends declarations.
pub(crate) fn declarations(
    alloc: Global,
    tokens: &mut Vec<Token>,
    its: &[Decl],
) -> Result<(), NoMemory>
    ensures { (known : List (List ℕ)) → Appends result tokens.old.items tokens.new.items
        (declarations_form known (map view_declaration its.now)) }
{
    for it in its {
        declaration(alloc, tokens, it)?;
    }
    Ok(())
}
