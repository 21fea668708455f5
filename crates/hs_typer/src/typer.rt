//! What typing knows at a place of the text.

ghost use Rattle.std.specs.Prelude.{◌≡◌, IfOk};
ghost use Rattle.hs_typer.specs.Steps.{beginning};

use crate::{Log, Origins, Tentative};
use hs_base::NoMemory;
use hs_names::Scopes;
use hs_operand_types::Bound;
use hs_table::Table;
use hs_tree::{Literals, Variable};
use hs_types::{FieldId, TypeId, Types};
use std::alloc::Global;

/// What a name of the space of ordinary names means (X3.159-1989 3.1.2.3).
#[derive(Clone, Copy, PartialEq, Eq)]
pub enum Entity {
    /// An enumeration constant, as 32 bits.
    Constant(u32),
    /// An object.
    Variable { variable: Variable, type_id: TypeId },
    /// A function, and what its calls are bound to.
    Function { type_id: TypeId, bound: Bound },
    /// A typedef name.
    Typedef(TypeId),
}

/// What a tag means: a struct or an enumeration, by its number in the table of types.
#[derive(Clone, Copy)]
pub enum Tag {
    Struct(u32),
    Enumeration(u32),
}

/// What the program takes the address of.
#[derive(Clone, Copy)]
pub enum Taken {
    Variable(Variable),
    Field(FieldId),
}

/// A call of a routine: the routine, by its place in the table, and the type of its declaration.
#[derive(Clone, Copy)]
pub struct RoutineCall {
    pub routine: u32,
    /// The type of the function.
    pub type_id: TypeId,
}

/// What typing knows at a place of the text.
#[derive(Drop)]
pub struct Typer {
    /// The types so far.
    pub types: Types,
    pub names: Scopes<Entity>,
    pub tags: Scopes<Tag>,
    pub table: Table,
    /// The string literals so far.
    pub literals: Literals,
    /// What the program takes the address of, so far.
    pub taken: Log<Taken>,
    /// The calls of routines so far.
    pub calls: Log<RoutineCall>,
    /// Where structs and enumerations come from.
    pub origins: Origins,
    /// The structs whose bodies have begun and are not complete, the innermost one last.
    pub open_bodies: Log<u32>,
    /// The structs of this unit whose bodies have begun so far, in the order of their braces.
    pub begun: Log<u32>,
    /// The objects that this unit makes at file scope so far, if their structs had no bodies at their names.
    pub tentatives: Log<Tentative>,
    /// Whether what is typed is evaluated: inside `sizeof` it is not, and no string, address and call counts.
    pub counts: bool,
    /// Whether the scope of the next list of parameters is kept: that of a function that is being defined goes on in its body.
    pub keeps: bool,
}

impl Typer {
    /// What is known before the first declaration: the types with fixed numbers, and the table of routines. Fails if memory runs out.
    ///
    /// Example: no name means anything yet.
    pub fn new(alloc: Global, table: Table) -> Result<Typer, NoMemory>
        ensures { IfOk result (λ typer. typer ≡ beginning table) }
    {
        Ok(Typer {
            types: Types::new(alloc)?,
            names: Scopes::new(alloc),
            tags: Scopes::new(alloc),
            table,
            literals: Literals::from_vec(Vec::new(alloc)),
            taken: Log::new(alloc),
            calls: Log::new(alloc),
            origins: Origins::new(alloc),
            open_bodies: Log::new(alloc),
            begun: Log::new(alloc),
            tentatives: Log::new(alloc),
            counts: true,
            keeps: false,
        })
    }
}
