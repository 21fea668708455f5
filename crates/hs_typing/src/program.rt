//! From units to a typed program.

ghost use Rattle.std.specs.Prelude.{◌≡◌, [], map, IfOk};
ghost use Rattle.hs_functions.specs.Units.{units_of};
ghost use Rattle.hs_linkage.specs.Definitions.{all_definitions};
ghost use Rattle.hs_linkage.specs.Works.{before_units};
ghost use Rattle.hs_syntax.specs.Views.{view_unit};
ghost use Rattle.hs_tree.specs.Fitting.{Fits};
ghost use Rattle.hs_tree.specs.Views.{view_function};
ghost use Rattle.hs_ends.specs.Ends.{globals_of, taken_globals, no_types, first_types, bound_routines};
ghost use Rattle.hs_typing.specs.Programs.{parts_of, assembled, usable_main, within, with_main, no_memory, refusal_of, ended, typed, view_typed, view_program, IsTyped, IsProgram};

use crate::main_function::{main_number, may_be_main};
use hs_base::{Limit, LimitKind, NoMemory};
use hs_ends::{
    bound_routines, first_types, globals_of, passes, sized_globals, taken_fields, taken_globals,
};
use hs_functions::functions_of;
use hs_linkage::{Definitions, Objects, Translator};
use hs_same_types::representatives;
use hs_syntax::{Unit, with};
use hs_table::Table;
use hs_tree::{
    Function, Global as Object, Globals, Literals, Program, Representatives, Routines, TakenFields,
};
use hs_typer::{TypeError, Typer};
use hs_types::Types;
use std::alloc::Global;
use std::mem::replace;

/// Why units are no program.
#[derive(Debug, Drop)]
pub enum ProgramError {
    /// The first refusal of a unit, in the order of units and declarations. It is not that memory ran out.
    Refused(TypeError),
    /// No unit defines a function `main` with external linkage, without parameters, that gives a number or nothing. Tried after all else
    /// but the limit.
    NoMain,
    /// The objects and the strings have more than 16777216 bytes.
    Limit(Limit),
    /// Memory ran out.
    NoMemory,
}

impl From<NoMemory> for ProgramError {
    ghost from_gives = { λ _ e. e ≡ no_memory };

    fn from(_refused: NoMemory) -> ProgramError {
        ProgramError::NoMemory
    }
}

/// The parts of a typed program.
#[derive(Drop)]
pub(crate) struct Typed {
    /// Its types, each once.
    pub types: Types,
    pub globals: Globals,
    pub literals: Literals,
    pub functions: Vec<Function>,
    pub routines: Routines,
    pub same: Representatives,
    pub taken: TakenFields,
    pub main: u32,
}

/// What the units leave at their end, but the types, the strings and the functions.
#[derive(Drop)]
struct Ends {
    globals: Globals,
    routines: Routines,
    same: Representatives,
    taken: TakenFields,
}

/// The reason, once nothing needs what is held. A function that drops a large struct itself takes a minute to prove.
fn given_up<T: Drop>(held: T, why: ProgramError) -> ProgramError
    ensures { result ≡ why }
{
    drop(held);
    why
}

/// The objects, with the types that they have at the end, without their sizes.
fn globals_at_end(alloc: Global, m: &mut Translator) -> Result<Vec<Object>, NoMemory>
    ensures globals { IfOk result
        (λ its. globals_of (taken_globals [] m.old.typer.taken) 0 [] m.old.objects m.old.typer.types ≡ (its.items, m.new.typer.types)) }
    ensures others { m.new ≡ record m.old { typer = record m.old.typer { types = m.new.typer.types }; objects = [] } }
{
    let objects = replace(&mut m.objects, Objects::new(alloc));
    let marks = taken_globals(alloc, m.typer.taken.items())?;
    globals_of(alloc, &mut m.typer.types, &marks, objects.into_vec())
}

/// The routines, with the types that are known at the end.
fn routines_at_end(alloc: Global, m: &Translator) -> Result<Routines, NoMemory>
    ensures { IfOk result
        (λ its. its ≡ bound_routines m.now.typer.types [] m.now.typer.table (first_types (no_types m.now.typer.table) m.now.typer.calls)) }
{
    let ids = first_types(alloc, m.typer.table.routines(), m.typer.calls.items())?;
    let its = bound_routines(alloc, &m.typer.types, m.typer.table.routines(), &ids)?;
    Ok(Routines::from_vec(its))
}

/// What the units leave at their end.
fn ends_of(alloc: Global, m: &mut Translator) -> Result<Ends, NoMemory>
    ensures { IfOk result (λ it. parts_of m.old ≡ (m.new.typer.types, it.globals, m.new.typer.literals, it.routines, it.same, it.taken)) }
{
    let objects = globals_at_end(alloc, m)?;
    let globals = Globals::from_vec(sized_globals(alloc, &m.typer.types, objects)?);
    let routines = routines_at_end(alloc, m)?;
    let same = representatives(alloc, &m.typer.types, &m.typer.origins)?;
    let taken = taken_fields(alloc, &same, m.typer.taken.items())?;
    Ok(Ends {
        globals,
        routines,
        same,
        taken,
    })
}

/// What is known of types, names and strings.
fn typer_of(m: Translator) -> Typer
    ensures { result ≡ m.typer }
{
    let Translator { typer, .. } = m;
    typer
}

/// The types and the strings.
fn tables_of(typer: Typer) -> (Types, Literals)
    ensures { result ≡ (typer.types, typer.literals) }
{
    let Typer {
        types,
        literals,
        ..
    } = typer;
    (types, literals)
}

/// A program of these parts.
fn assembled(m: Translator, ends: Ends, functions: Vec<Function>, main: u32) -> Typed
    ensures { view_typed result
        ≡ assembled (m.typer.types, ends.globals, m.typer.literals, ends.routines, ends.same, ends.taken) (map view_function functions.items) main }
{
    let (types, literals) = tables_of(typer_of(m));
    let Ends {
        globals,
        routines,
        same,
        taken,
    } = ends;
    Typed {
        types,
        globals,
        literals,
        functions,
        routines,
        same,
        taken,
        main,
    }
}

/// The program, unless its objects and strings have more bytes than a program may have.
fn within(it: Typed) -> Result<Typed, ProgramError>
    ensures { IsTyped (within (view_typed it)) result }
{
    if passes(it.globals.items(), it.literals.items()) {
        let limit = Limit {
            kind: LimitKind::Objects,
            reached: LimitKind::Objects.number(),
        };
        return Err(given_up(it, ProgramError::Limit(limit)));
    }
    Ok(it)
}

/// The number of the function `main`, if that function can be one.
fn usable_main(m: &Translator, functions: &[Function], main: Option<u32>) -> Option<u32>
    ensures { result ≡ usable_main m.now.typer.types (map view_function functions.now) main }
{
    let number = main?;
    if may_be_main(&m.typer.types, functions, number) {
        Some(number)
    } else {
        None
    }
}

/// The program with that function as its `main`.
fn completed(
    alloc: Global,
    m: Translator,
    functions: Vec<Function>,
    number: u32,
) -> Result<Typed, ProgramError>
    ensures { IsTyped (within (assembled (parts_of m) (map view_function functions.items) number)) result }
{
    let mut all = m;
    let ends = ends_of(alloc, &mut all);
    match with((all, functions), ends) {
        Ok(((all, functions), ends)) => within(assembled(all, ends, functions, number)),
        Err(NoMemory) => Err(ProgramError::NoMemory),
    }
}

/// The program with that function as its `main`, if there is one.
fn with_main(
    alloc: Global,
    m: Translator,
    functions: Vec<Function>,
    main: Option<u32>,
) -> Result<Typed, ProgramError>
    ensures { IsTyped (with_main (map view_function functions.items) m main) result }
{
    match main {
        Some(number) => completed(alloc, m, functions, number),
        None => Err(given_up((m, functions), ProgramError::NoMain)),
    }
}

/// A refusal of typing.
fn refused(why: TypeError) -> ProgramError
    ensures { result ≡ refusal_of why }
{
    match why {
        TypeError::Untyped(at) => ProgramError::Refused(TypeError::Untyped(at)),
        TypeError::Undeclared(at, name) => ProgramError::Refused(TypeError::Undeclared(at, name)),
        TypeError::UnknownRoutine(at, name) => {
            ProgramError::Refused(TypeError::UnknownRoutine(at, name))
        }
        TypeError::Clash(at, name) => ProgramError::Refused(TypeError::Clash(at, name)),
        TypeError::NoMemory => ProgramError::NoMemory,
    }
}

/// What is known before the first unit.
fn beginning(alloc: Global, table: Table, units: &[Unit]) -> Result<Translator, NoMemory>
    ensures { IfOk result (λ m. m ≡ before_units table (all_definitions 0 (map view_unit units.now))) }
{
    let definitions = Definitions::of(alloc, units)?;
    Translator::new(alloc, table, definitions)
}

/// The program that units are, from what is known before the first one.
fn translated(alloc: Global, m: Translator, units: &[Unit]) -> Result<Typed, ProgramError>
    ensures { IsTyped (ended (units_of [] (map view_unit units.now) m)) result }
{
    let mut all = m;
    match functions_of(alloc, &mut all, units) {
        Ok(functions) => {
            let main = usable_main(&all, &functions, main_number(&all.definitions));
            with_main(alloc, all, functions, main)
        }
        Err(why) => Err(given_up(all, refused(why))),
    }
}

/// The parts of the program that units are with a table of routines.
fn typed_parts(alloc: Global, table: Table, units: &[Unit]) -> Result<Typed, ProgramError>
    ensures { IsTyped (typed table (map view_unit units.now)) result }
{
    match beginning(alloc, table, units) {
        Ok(m) => translated(alloc, m, units),
        Err(NoMemory) => Err(ProgramError::NoMemory),
    }
}

/// The program of parts that fit.
fn whole(it: Typed) -> Program
    requires fits { Fits (view_typed it) }
    ensures { view_program result ≡ view_typed it }
{
    let Typed {
        types,
        globals,
        literals,
        functions,
        routines,
        same,
        taken,
        main,
    } = it;
    Program {
        types,
        globals,
        literals,
        functions,
        routines,
        same,
        taken,
        main,
    }
}

/// The typed program that units are with a table of routines. Every fact that a program keeps is proved of it.
///
/// # Errors
///
/// [`ProgramError::Refused`] with the first refusal, in the order of units and declarations, and in an expression the operands first; then
/// [`ProgramError::NoMain`]; then [`ProgramError::Limit`], of Objects.
///
/// Example: no units have no `main`.
pub fn program_of(alloc: Global, table: Table, units: &[Unit]) -> Result<Program, ProgramError>
    ensures { IsProgram (typed table (map view_unit units.now)) result }
{
    match typed_parts(alloc, table, units) {
        Ok(it) => Ok(whole(it)),
        Err(why) => Err(why),
    }
}
