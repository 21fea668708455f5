//! Translation units (X3.159-1989 3.7), one after the other.

ghost use Rattle.std.specs.Prelude.{◌≡◌, [], length, map, option_map, IfOk};
ghost use Rattle.hs_functions.specs.Units.{place_of_declaration, first_name, declared_if, external, with_function, externals, unit_ended, unit_of, units_of};
ghost use Rattle.hs_linkage.specs.Works.{Works};
ghost use Rattle.hs_syntax.specs.Views.{view_declaration, view_external, view_unit};
ghost use Rattle.hs_tree.specs.Views.{view_function};

use crate::functions::defined;
use hs_base::NoMemory;
use hs_declarations::file_declaration;
use hs_linkage::{Externals, Translator, rechecked};
use hs_names::Scopes;
use hs_syntax::{Decl, External, Unit, first_of_specifiers};
use hs_tokens::Place;
use hs_tree::Function;
use hs_typer::{Braces, Log, TypeError, next_place, word_of};
use std::alloc::Global;

/// The most functions: the limits of a program are far below.
const MOST: usize = 4_000_000_000;

/// The place of the first specifier of a declaration, or else of its first name.
fn place_of_declaration(it: &Decl) -> Option<Place>
    ensures { result ≡ place_of_declaration (view_declaration it.now) }
{
    match first_of_specifiers(&it.specifiers) {
        Some(place) => Some(place),
        None => first_name(it),
    }
}

/// The place of the first name of a declaration.
fn first_name(it: &Decl) -> Option<Place>
    ensures { result ≡ first_name (view_declaration it.now).items }
{
    let (first, _) = it.items.split_first()?;
    let word = word_of(&first.declarator)?;
    Some(word.place)
}

/// What a declaration of file scope declares.
fn declare(alloc: Global, m: &mut Translator, it: &Decl) -> Result<(), TypeError>
    ensures { Works (λ it. it) m.new
        (declared_if (place_of_declaration (view_declaration it.now)) (view_declaration it.now) m.old) result }
{
    match place_of_declaration(it) {
        Some(place) => file_declaration(alloc, m, place, it),
        None => Ok(()),
    }
}

/// An external declaration, and the function that it defines, if it defines one: that of the given number.
fn external(
    alloc: Global,
    m: &mut Translator,
    number: u32,
    it: &External,
) -> Result<Option<Function>, TypeError>
    ensures { Works (option_map view_function) m.new (external number (view_external it.now) m.old) result }
{
    match it {
        External::Function {
            specifiers,
            declarator,
            body,
        } => Ok(Some(defined(alloc, m, number, specifiers, declarator, body)?)),
        External::Declaration(declaration) => {
            declare(alloc, m, declaration)?;
            Ok(None)
        }
    }
}

/// The functions, with one more, if there is one.
fn with_function(done: Vec<Function>, next: Option<Function>) -> Result<Vec<Function>, NoMemory>
    ensures { IfOk result (λ all. map view_function all.items ≡ with_function (map view_function done.items) (option_map view_function next)) }
{
    let mut all = done;
    if let Some(it) = next {
        all.push(it)?;
    }
    Ok(all)
}

/// The number of the next function.
fn next_number(done: &[Function]) -> Result<u32, NoMemory>
    ensures { IfOk result (λ number. number ≡ length done.now) }
{
    let count = done.len();
    if count > MOST {
        return Err(NoMemory);
    }
    Ok(count as u32)
}

/// The external declarations of a unit, in their order, after these functions.
fn externals(
    alloc: Global,
    m: &mut Translator,
    done: Vec<Function>,
    its: &[External],
) -> Result<Vec<Function>, TypeError>
    ensures { Works (λ all. map view_function all.items) m.new
        (externals (map view_function done.items) (map view_external its.now) m.old) result }
{
    let mut all = done;
    'its: for it in its {
        let number = next_number(&all)?;
        let next = external(alloc, m, number, it)?;
        all = with_function(all, next)?;
    }
    Ok(all)
}

/// The names of the unit mean nothing in the next one.
fn end_unit(alloc: Global, m: &mut Translator) -> Result<(), TypeError>
    ensures { Works (λ it. it) m.new (unit_ended m.old) result }
{
    m.typer.names = Scopes::new(alloc);
    m.typer.tags = Scopes::new(alloc);
    m.typer.origins.times = Braces::new(alloc);
    m.typer.origins.unit = next_place(m.typer.origins.unit)?;
    m.typer.begun = Log::new(alloc);
    m.links = Scopes::new(alloc);
    m.internals = Externals::new(alloc);
    m.typer.tentatives = Log::new(alloc);
    Ok(())
}

/// A unit, after these functions.
fn unit_of(
    alloc: Global,
    m: &mut Translator,
    done: Vec<Function>,
    it: &Unit,
) -> Result<Vec<Function>, TypeError>
    ensures { Works (λ all. map view_function all.items) m.new (unit_of (map view_function done.items) (view_unit it.now) m.old) result }
{
    let all = externals(alloc, m, done, &it.externals)?;
    rechecked(alloc, m)?;
    end_unit(alloc, m)?;
    Ok(all)
}

/// The functions that the units of a program define, in the order of the text. Refused as `Untyped`, `Undeclared`, `UnknownRoutine` or
/// `Clash`, at the first place.
///
/// Example: two units that each define `f` with external linkage are refused, at the second `f`.
pub fn functions_of(
    alloc: Global,
    m: &mut Translator,
    its: &[Unit],
) -> Result<Vec<Function>, TypeError>
    ensures { Works (λ all. map view_function all.items) m.new (units_of [] (map view_unit its.now) m.old) result }
{
    let mut all = Vec::new(alloc);
    'its: for it in its {
        all = unit_of(alloc, m, all, it)?;
    }
    Ok(all)
}
