//! The linkage that the declarations of file scope give names in their unit (X3.159-1989 3.1.2.2).

ghost use Rattle.std.specs.Prelude.{◌≡◌, ℕ, List, map, option_copied, IfOk};
ghost use Rattle.hs_index.specs.Index.{at};
ghost use Rattle.hs_linkage.specs.Indexes.{linkage_number, or_first, number_if, linkage_of};
ghost use Rattle.hs_linkage.specs.Definitions.{storage_of, has_static, declares_with, is_named, is_among, declares, is_static};
ghost use Rattle.hs_syntax.specs.Views.{view_external, view_item, view_specifier, specification_of};
ghost use Rattle.hs_typer.specs.Declarators.{word_of};

use crate::definitions::put_first;
use hs_base::NoMemory;
use hs_index::Index;
use hs_syntax::{External, Item, Specifier, Storage, Word};
use hs_typer::word_of;
use std::alloc::Global;

/// The storage word among specifiers.
fn storage_of(its: &[Specifier]) -> Option<Storage>
    ensures { result ≡ storage_of (specification_of its.now) }
{
    'its: for it in its {
        if let Specifier::Storage(word, _) = it {
            return Some(*word);
        }
    }
    None
}

/// Whether a declaration with these specifiers declares objects and functions.
fn declares_with(its: &[Specifier]) -> bool
    ensures { result ≡ declares_with (specification_of its.now) }
{
    if its.is_empty() {
        return false;
    }
    match storage_of(its) {
        Some(Storage::Typedef) => false,
        Some(Storage::Extern | Storage::Static) | None => true,
    }
}

/// The number that says whether specifiers have the word `static`.
fn linkage_number(its: &[Specifier]) -> u32
    ensures { result ≡ linkage_number (has_static (specification_of its.now)) }
{
    match storage_of(its) {
        Some(Storage::Static) => 1,
        Some(Storage::Typedef | Storage::Extern) | None => 0,
    }
}

/// The linkage of names, with that of one more, if there is one and it has none yet.
fn with_name(
    alloc: Global,
    names: Index,
    word: Option<&Word>,
    number: u32,
) -> Result<Index, NoMemory>
    ensures { IfOk result (λ all. (name : List ℕ)
        → at name all ≡ or_first (at name names) (number_if (is_named name (option_copied word.entry)) number)) }
{
    let mut all = names;
    if let Some(it) = word {
        put_first(alloc, &mut all, it.text.items(), number)?;
    }
    Ok(all)
}

/// The linkage of names, with that of the names of these declarators.
fn with_items(alloc: Global, names: Index, its: &[Item], number: u32) -> Result<Index, NoMemory>
    ensures { IfOk result (λ all. (name : List ℕ)
        → at name all ≡ or_first (at name names) (number_if (is_among name (map view_item its.now)) number)) }
{
    let mut all = names;
    'its: for it in its {
        all = with_name(alloc, all, word_of(&it.declarator), number)?;
    }
    Ok(all)
}

/// The linkage of names, with that of the names that an external declaration declares.
fn with_external(alloc: Global, names: Index, it: &External) -> Result<Index, NoMemory>
    ensures { IfOk result (λ all. (name : List ℕ) → at name all
        ≡ or_first (at name names) (number_if (declares name (view_external it.now)) (linkage_number (is_static (view_external it.now))))) }
{
    match it {
        External::Function {
            specifiers,
            declarator,
            ..
        } => with_name(
            alloc,
            names,
            word_of(declarator),
            linkage_number(specifiers),
        ),
        External::Declaration(declared) => {
            if declares_with(&declared.specifiers) {
                with_items(
                    alloc,
                    names,
                    &declared.items,
                    linkage_number(&declared.specifiers),
                )
            } else {
                Ok(names)
            }
        }
    }
}

/// The linkage of the names that external declarations declare: that of the first declaration of each.
pub(crate) fn statics_of(alloc: Global, its: &[External]) -> Result<Index, NoMemory>
    ensures { IfOk result (λ all. (name : List ℕ) → at name all ≡ linkage_of name (map view_external its.now)) }
{
    let mut all = Index::new(alloc);
    'its: for it in its {
        all = with_external(alloc, all, it)?;
    }
    Ok(all)
}
