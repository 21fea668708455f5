//! The typedef names that a declaration makes (X3.159-1989 3.5.6).

ghost use Rattle.std.specs.Prelude.{◌≡◌, ◌++◌, map, IfOk};
ghost use Rattle.std.specs.List.{list_any};
ghost use Rattle.hs_syntax.specs.Phrases.{is_typedef, name_in, name_of, made_by};
ghost use Rattle.hs_syntax.specs.Views.{specification_of, view_specifier, view_direct, view_declarator, view_item, view_external};
ghost use Rattle.hs_decl_parser.specs.Typedefs.{is_typedef_word};

use hs_base::NoMemory;
use hs_expr_parser::TypeNames;
use hs_syntax::{Direct, External, Item, Specifier, Storage};
use std::alloc::Global;

/// Whether the specifier is `typedef` (X3.159-1989 3.5.1).
fn is_typedef_word(it: &Specifier) -> bool
    ensures { result ≡ is_typedef_word (view_specifier it.now) }
{
    matches!(it, Specifier::Storage(Storage::Typedef, _))
}

/// Whether one of them is `typedef`.
fn has_typedef(specifiers: &[Specifier]) -> bool
    ensures { result ≡ list_any (λ it. is_typedef_word (view_specifier it)) specifiers.now }
{
    specifiers.iter().any(|it| is_typedef_word(it))
}

/// Whether `typedef` is among the specifiers (X3.159-1989 3.5.1).
#[tactic(auto, using(crate::proofs::Naming::typedef_is))]
fn is_typedef(specifiers: &[Specifier]) -> bool
    ensures { result ≡ is_typedef (specification_of specifiers.now) }
{
    has_typedef(specifiers)
}

/// The name that a declarator names, by what follows its pointers (X3.159-1989 3.5.4).
#[cycle(name_in)]
fn name_in(direct: &Direct) -> &[u8]
    ensures { result.now ≡ name_in (view_direct direct.now) }
{
    match direct {
        Direct::Empty => &[],
        Direct::Name(word) => word.text.items(),
        Direct::Parens(it) => name_in(&it.direct),
        Direct::Array(base) => name_in(base),
        Direct::Sized { base, .. } => name_in(base),
        Direct::Function { base, .. } => name_in(base),
        Direct::FunctionOfVoid { base, .. } => name_in(base),
    }
}

/// The names, and those of these declarators.
fn with_all(alloc: Global, known: TypeNames, items: &[Item]) -> Result<TypeNames, NoMemory>
    ensures { IfOk result (λ names. names ≡ known ++ map (λ item. name_of (view_declarator item.declarator)) items.now) }
{
    let mut names = known;
    'items: for item in items {
        names = names.with(alloc, name_in(&item.declarator.direct))?;
    }
    Ok(names)
}

/// The names, and the typedef names that an external declaration makes (X3.159-1989 3.5.6): they are known after it.
#[tactic(auto, using(crate::proofs::Naming::made, crate::proofs::Naming::made_none, crate::proofs::Naming::made_nothing))]
pub(crate) fn with_names(
    alloc: Global,
    known: TypeNames,
    it: &External,
) -> Result<TypeNames, NoMemory>
    ensures { IfOk result (λ names. names ≡ known ++ made_by (view_external it.now)) }
{
    match it {
        External::Declaration(it) if is_typedef(&it.specifiers) => {
            with_all(alloc, known, &it.items)
        }
        _ => Ok(known),
    }
}
