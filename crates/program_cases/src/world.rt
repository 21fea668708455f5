//! The names that expressions are typed after.

use crate::expressions::designated_type;
use crate::refusal::Refusal;
use crate::texts::boxed;
use hs_base::{NoMemory, Pos};
use hs_operand_types::Bound;
use hs_syntax::Word;
use hs_table::{Table, built_in};
use hs_tokens::{Origin, Place, Text};
use hs_tree::Variable;
use hs_typer::{Entity, Typer, declare};
use hs_types::{Integer, ListId, Parameters, Row, TypeId};
use std::alloc::Global;

/// A name, at a place that no case asks for.
fn named(alloc: Global, name: &str) -> Result<Word, Refusal> {
    let pos = Pos {
        file: 0,
        line: 1,
        col: 1,
    };
    Ok(Word {
        text: Text::from_vec(alloc, name.as_bytes().to_vec(alloc)?)?,
        place: Place {
            pos,
            origin: Origin::Plain,
        },
    })
}

/// Declares a name.
fn declared(alloc: Global, typer: &mut Typer, name: &str, entity: Entity) -> Result<(), Refusal> {
    let word = named(alloc, name)?;
    Ok(declare(alloc, typer, &word, entity)?)
}

/// Declares an object at that place, of the type of what a text designates.
fn with_object(
    alloc: Global,
    typer: &mut Typer,
    name: &str,
    place: u32,
    text: &str,
) -> Result<(), Refusal> {
    let type_id = designated_type(alloc, typer, text)?;
    let variable = Variable::Global(place);
    declared(alloc, typer, name, Entity::Variable { variable, type_id })
}

/// Declares objects.
fn with_objects(
    alloc: Global,
    typer: &mut Typer,
    rows: &[(&str, u32, &str)],
) -> Result<(), Refusal> {
    for (name, place, text) in rows {
        with_object(alloc, typer, name, *place, text)?;
    }
    Ok(())
}

/// Numbers.
const NUMBERS: [(&str, u32, &str); 7] = [
    ("i", 0, "(int)0"),
    ("u", 1, "(unsigned)0"),
    ("c", 2, "(char)0"),
    ("s", 3, "(short)0"),
    ("l", 4, "(long)0"),
    ("ul", 5, "(unsigned long)0"),
    ("e", 6, "(enum E)0"),
];

/// Pointers, an array and a struct.
const OTHERS: [(&str, u32, &str); 6] = [
    ("p", 7, "(char *)0"),
    ("h", 8, "(char **)0"),
    ("v", 9, "(void *)0"),
    ("q", 10, "(struct S *)0"),
    ("a", 11, "*(int (*)[3])0"),
    ("r", 12, "*(struct S *)0"),
];

/// Declares a function.
fn with_function(
    alloc: Global,
    typer: &mut Typer,
    name: &str,
    returned: TypeId,
    parameters: ListId,
    bound: Bound,
) -> Result<(), Refusal> {
    let type_id = typer.types.add(Row::Function {
        result: returned,
        parameters,
    })?;
    declared(alloc, typer, name, Entity::Function { type_id, bound })
}

/// The list of a type and the others after it.
fn parameters(typer: &mut Typer, first: TypeId, others: ListId) -> Result<ListId, Refusal> {
    Ok(
        typer
            .types
            .add_parameters(Parameters::More { first, others })?,
    )
}

/// Declares functions that are defined, one that is not, and two routines. The second does not fit its role: `NewHandle` takes the
/// number of bytes.
fn with_functions(alloc: Global, typer: &mut Typer) -> Result<(), Refusal> {
    let int = TypeId::integer(Integer::Int);
    let handle = TypeId::char_handle();
    let none = typer.types.add_parameters(Parameters::Empty)?;
    let pointer = parameters(typer, TypeId::char_pointer(), none)?;
    let two = parameters(typer, int, pointer)?;
    let one = parameters(typer, handle, none)?;
    with_function(alloc, typer, "f", int, two, Bound::Function(0))?;
    with_function(alloc, typer, "g", TypeId::void(), none, Bound::Function(1))?;
    with_function(alloc, typer, "unknown", int, none, Bound::Nothing)?;
    with_function(
        alloc,
        typer,
        "HLock",
        TypeId::void(),
        one,
        Bound::Routine(3),
    )?;
    with_function(alloc, typer, "NewHandle", handle, none, Bound::Routine(9))
}

/// Declares all names.
fn furnish(alloc: Global, typer: &mut Typer) -> Result<(), Refusal> {
    designated_type(
        alloc,
        typer,
        "sizeof(struct S { int n; char t[4]; struct S *next; })",
    )?;
    designated_type(alloc, typer, "sizeof(enum E { A, B = 5 })")?;
    with_objects(alloc, typer, &NUMBERS)?;
    with_objects(alloc, typer, &OTHERS)?;
    with_functions(alloc, typer)
}

/// What is known before the first declaration, with that table.
fn with_table(alloc: Global, table: Result<Table, NoMemory>) -> Result<Typer, NoMemory> {
    Typer::new(alloc, table?)
}

/// What is known before the first declaration.
pub(crate) fn beginning(alloc: Global) -> Result<Box<Typer>, Refusal> {
    boxed(alloc, with_table(alloc, built_in(alloc)))
}

/// What is known after the declarations.
pub(crate) fn furnished(alloc: Global) -> Result<Box<Typer>, Refusal> {
    let mut typer = beginning(alloc)?;
    furnish(alloc, &mut typer)?;
    Ok(typer)
}
