//! The parameters of a function that is defined (X3.159-1989 3.7.1).

ghost use Rattle.std.specs.Prelude.{◌≡◌, map, option_copied};
ghost use Rattle.hs_functions.specs.Functions.{named_parameter, next_type, parameter_in, parameters_in};
ghost use Rattle.hs_linkage.specs.Works.{Works};
ghost use Rattle.hs_syntax.specs.RowViews.{view_parameter, parameters_from};
ghost use Rattle.hs_syntax.specs.Views.{view_declarator};

use hs_declarations::{first_place, must_be_whole, new_local};
use hs_linkage::Translator;
use hs_syntax::{Declarator, Parameter, Word};
use hs_tokens::Place;
use hs_typer::{TypeError, word_of};
use hs_types::{ListId, Parameters, TypeId};
use std::alloc::Global;

/// A parameter, which has a name and a complete type.
fn named_parameter(
    alloc: Global,
    m: &mut Translator,
    first: Place,
    word: Option<&Word>,
    id: TypeId,
) -> Result<(), TypeError>
    ensures { Works (λ it. it) m.new (named_parameter first (option_copied word.entry) id m.old) result }
{
    match word {
        Some(name) => {
            must_be_whole(m, name, id)?;
            new_local(alloc, m, name, id)?;
            Ok(())
        }
        None => Err(TypeError::Untyped(first)),
    }
}

/// The first type of a list of parameter types, and the others.
fn next_type(m: &Translator, first: Place, list: ListId) -> Result<(TypeId, ListId), TypeError>
    ensures { Works (λ it. it) m.now (next_type first list m.now) result }
{
    match m.typer.types.parameters(list) {
        Some(Parameters::More { first: id, others }) => Ok((id, others)),
        Some(Parameters::Empty) | None => Err(TypeError::Untyped(first)),
    }
}

/// One parameter, of the first type of a list. Returns the list of the others.
fn parameter_in(
    alloc: Global,
    m: &mut Translator,
    first: Place,
    it: &Declarator,
    list: ListId,
) -> Result<ListId, TypeError>
    ensures { Works (λ others. others) m.new (parameter_in first (view_declarator it.now) list m.old) result }
{
    let (id, others) = next_type(m, first, list)?;
    named_parameter(alloc, m, first, word_of(it), id)?;
    Ok(others)
}

/// The parameters are the first variables of the function, in their order.
pub(crate) fn parameters_in(
    alloc: Global,
    m: &mut Translator,
    at: Place,
    its: &[Parameter],
    list: ListId,
) -> Result<(), TypeError>
    ensures { Works (λ it. it) m.new (parameters_in at (parameters_from (map view_parameter its.now)) list m.old) result }
{
    let mut left = list;
    'its: for it in its {
        let first = first_place(at, &it.specifiers);
        left = parameter_in(alloc, m, first, &it.declarator, left)?;
    }
    Ok(())
}
