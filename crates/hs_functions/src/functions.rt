//! Function definitions (X3.159-1989 3.7.1).

ghost use Rattle.std.specs.Prelude.{◌≡◌, Ok, drop, map, option_map, option_copied};
ghost use Rattle.hs_functions.specs.Functions.{may_store, may_give, is_of_other, is_only, finished, counts, defined_with, defined_as, defined_by, defined_said, brace_of, defined};
ghost use Rattle.hs_functions.specs.Opening.{opened_type, named_outside};
ghost use Rattle.hs_linkage.specs.Works.{Works};
ghost use Rattle.hs_syntax.specs.RowViews.{view_parameter, parameters_from};
ghost use Rattle.hs_syntax.specs.Views.{view_block as view_compound, view_declarator, specification_of};
ghost use Rattle.hs_tree.specs.Views.{view_block, view_function};
ghost use Rattle.hs_typer.specs.Steps.{Steps};

use crate::declarators::parameters_of;
use crate::parameters::parameters_in;
use hs_base::Bytes;
use hs_declarations::{
    Front, first_place, front_of, is_static, is_typedef_word, item_type, storage_place,
};
use hs_linkage::{Locals, Translator, clash, link, may_name};
use hs_names::Scopes;
use hs_operand_types::{Bound, is_readable, is_void};
use hs_statements::body;
use hs_syntax::{Block as Compound, Declarator, Parameter, Specifier, Storage, Word};
use hs_tokens::Place;
use hs_tree::{Block, Function};
use hs_typer::{Entity, Taken, TypeError, Typer, copied, word_of};
use hs_types::{ListId, Row, TypeId};
use std::alloc::Global;
use std::mem::replace;

/// The most variables: the limits of a program are far below.
const MOST: usize = 4_000_000_000;

/// Refuses `typedef` as the storage word of a definition, at that word.
fn may_store(m: &Translator, stored: Place, storage: Option<Storage>) -> Result<(), TypeError>
    ensures { Works (λ it. it) m.now (may_store stored storage m.now) result }
{
    let _known = m;
    if is_typedef_word(storage) {
        return Err(TypeError::Untyped(stored));
    }
    Ok(())
}

/// Returns the type that a declarator makes of the type of the specifiers. Then the innermost scope is that of the
/// parameters: the scope of the first list of parameters in the declarator, or a new one if there are no parameters.
fn opened_type(
    alloc: Global,
    typer: &mut Typer,
    at: Place,
    base: TypeId,
    it: &Declarator,
    parameters: &[Parameter],
) -> Result<TypeId, TypeError>
    ensures { Steps (λ id. id) typer.new
        (opened_type at base (view_declarator it.now) (parameters_from (map view_parameter parameters.now)) typer.old) result }
{
    match parameters.split_first() {
        None => {
            let id = item_type(alloc, typer, at, base, it)?;
            typer.names.enter()?;
            typer.tags.enter()?;
            Ok(id)
        }
        Some(_) => {
            typer.keeps = true;
            item_type(alloc, typer, at, base, it)
        }
    }
}

/// Refuses a function that gives a value that cannot be read, at its name.
fn may_give(m: &Translator, word: &Word, id: TypeId) -> Result<(), TypeError>
    ensures { Works (λ it. it) m.now (may_give word.now id m.now) result }
{
    if !is_void(&m.typer.types, id) && !is_readable(&m.typer.types, id) {
        return Err(TypeError::Untyped(word.place));
    }
    Ok(())
}

/// Whether it is a function whose calls are bound to a definition of another number.
fn is_of_other(number: u32, it: Entity) -> bool
    ensures { result ≡ is_of_other number it }
{
    match it {
        Entity::Function { bound, .. } => match bound {
            Bound::Function(its) => its != number,
            Bound::Routine(_) | Bound::Nothing => false,
        },
        Entity::Constant(_) | Entity::Variable { .. } | Entity::Typedef(_) => false,
    }
}

/// Refuses a second definition, at its name.
fn must_be_only(
    alloc: Global,
    m: &Translator,
    number: u32,
    word: &Word,
    it: Entity,
) -> Result<(), TypeError>
    ensures { Works (λ it. it) m.now (is_only number word.now it m.now) result }
{
    let _known = m;
    if is_of_other(number, it) {
        return Err(clash(alloc, word)?);
    }
    Ok(())
}

/// The name of the function, in the scope around that of its parameters.
fn name_outside(alloc: Global, typer: &mut Typer, word: &Word, it: Entity) -> Result<(), TypeError>
    ensures { Steps (λ it. it) typer.new (named_outside word.now it typer.old) result }
{
    let names = replace(&mut typer.names, Scopes::new(alloc));
    typer.names = names.with_outer(alloc, word.text.items(), it)?;
    Ok(())
}

/// The addresses from that place on.
fn addresses_from(its: &[Taken], before: usize) -> &[Taken]
    ensures { result.now ≡ drop before its.now }
{
    if before <= its.len() {
        &its[before..]
    } else {
        &[]
    }
}

/// The function, after its body: its scope ends, and the variables whose addresses its body takes are marked.
fn finished(
    alloc: Global,
    m: &mut Translator,
    name: Bytes,
    at: Place,
    id: TypeId,
    count: u32,
    before: usize,
    it: Block,
) -> Function
    ensures { finished name at id count before (view_block it) m.old ≡ Ok (view_function result, m.new) }
{
    m.typer.names.leave();
    m.typer.tags.leave();
    let locals = replace(&mut m.locals, Locals::new(alloc));
    let variables = locals.marked(addresses_from(m.typer.taken.items(), before));
    Function {
        name,
        at,
        result: id,
        parameters: count,
        variables,
        body: it,
    }
}

/// How many variables the function has, and how many addresses the program has taken.
fn counts(m: &Translator) -> Result<(u32, usize), TypeError>
    ensures { Works (λ it. it) m.now (counts m.now) result }
{
    let count = m.locals.items().len();
    if count > MOST {
        return Err(TypeError::NoMemory);
    }
    Ok((count as u32, m.typer.taken.items().len()))
}

/// A function with its parameters and its body.
fn defined_with(
    alloc: Global,
    m: &mut Translator,
    number: u32,
    internal: bool,
    word: &Word,
    parameters: &[Parameter],
    id: TypeId,
    it: &Compound,
    given: TypeId,
    list: ListId,
) -> Result<Function, TypeError>
    ensures { Works view_function m.new
        (defined_with number internal word.now (parameters_from (map view_parameter parameters.now)) id (view_compound it.now) given list m.old)
        result }
{
    may_give(m, word, given)?;
    let entity = link(alloc, m, internal, word, id)?;
    must_be_only(alloc, m, number, word, entity)?;
    name_outside(alloc, &mut m.typer, word, entity)?;
    parameters_in(alloc, m, word.place, parameters, list)?;
    let (count, before) = counts(m)?;
    let name = copied(alloc, word.text.items())?;
    let block = body(alloc, m, given, it)?;
    Ok(finished(alloc, m, name, word.place, given, count, before, block))
}

/// A function of that type.
fn defined_as(
    alloc: Global,
    m: &mut Translator,
    number: u32,
    internal: bool,
    word: &Word,
    parameters: &[Parameter],
    it: &Compound,
    id: TypeId,
) -> Result<Function, TypeError>
    ensures { Works view_function m.new
        (defined_as number internal word.now (parameters_from (map view_parameter parameters.now)) (view_compound it.now) id m.old) result }
{
    match m.typer.types.row(id) {
        Some(
            Row::Function {
                result: given,
                parameters: list,
            },
        ) => defined_with(
            alloc, m, number, internal, word, parameters, id, it, given, list,
        ),
        Some(
            Row::Void
            | Row::Integer(_)
            | Row::Pointer(_)
            | Row::Enumeration(_)
            | Row::Struct(_)
            | Row::Array { .. }
            | Row::OpenArray(_),
        )
        | None => Err(TypeError::Untyped(word.place)),
    }
}

/// A function that its declarator names, by a list of parameters.
fn defined_by(
    alloc: Global,
    m: &mut Translator,
    number: u32,
    at: Place,
    said: Front,
    it: &Declarator,
    block: &Compound,
    word: Option<&Word>,
    parameters: Option<&[Parameter]>,
) -> Result<Function, TypeError>
    ensures { Works view_function m.new
        (defined_by number at said (view_declarator it.now) (view_compound block.now) (option_copied word.entry)
        (option_map (λ its. parameters_from (map view_parameter its)) (option_copied parameters.entry)) m.old) result }
{
    let Some(name) = word else {
        return Err(TypeError::Untyped(at));
    };
    let Some(its) = parameters else {
        return Err(TypeError::Untyped(name.place));
    };
    may_name(m, name)?;
    let id = opened_type(alloc, &mut m.typer, at, said.type_id, it, its)?;
    let internal = is_static(said.storage);
    defined_as(alloc, m, number, internal, name, its, block, id)
}

/// A function, after its specifiers. `stored` is the place of the storage word.
fn defined_said(
    alloc: Global,
    m: &mut Translator,
    number: u32,
    at: Place,
    stored: Place,
    it: &Declarator,
    block: &Compound,
    said: Front,
) -> Result<Function, TypeError>
    ensures { Works view_function m.new
        (defined_said number at stored (view_declarator it.now) (view_compound block.now) said m.old) result }
{
    may_store(m, stored, said.storage)?;
    let word = word_of(it);
    let parameters = parameters_of(it);
    defined_by(alloc, m, number, at, said, it, block, word, parameters)
}

/// The place of the `{` of a block.
fn brace_of(it: &Compound) -> Place
    ensures { result ≡ brace_of (view_compound it.now) }
{
    it.opening
}

/// A function definition (3.7.1): the function that has that number in the program. Refused as `Untyped` if it does not meet the
/// constraints of C, and as a `Clash` at its name if it does not fit another declaration of the name, in any unit, or if the function is
/// defined already.
pub(crate) fn defined(
    alloc: Global,
    m: &mut Translator,
    number: u32,
    specifiers: &[Specifier],
    it: &Declarator,
    block: &Compound,
) -> Result<Function, TypeError>
    ensures { Works view_function m.new
        (defined number (specification_of specifiers.now) (view_declarator it.now) (view_compound block.now) m.old) result }
{
    let at = first_place(brace_of(block), specifiers);
    let said = front_of(alloc, &mut m.typer, at, specifiers)?;
    let stored = storage_place(at, specifiers);
    defined_said(alloc, m, number, at, stored, it, block, said)
}
