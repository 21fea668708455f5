//! What is known of a program at a place of its text.

ghost use Rattle.std.specs.Prelude.{◌≡◌, IfOk};
ghost use Rattle.hs_linkage.specs.Works.{before_units};

use crate::definitions::Definitions;
use crate::externals::Externals;
use crate::objects::{Locals, Objects};
use hs_base::NoMemory;
use hs_names::Scopes;
use hs_table::Table;
use hs_tree::{Parts, VariableDecl};
use hs_typer::{Entity, Typer};
use std::alloc::Global;

/// What a name with linkage refers to in its unit (X3.159-1989 3.1.2.2).
#[derive(Clone, Copy)]
pub struct Linked {
    /// Whether the linkage is internal.
    pub internal: bool,
    /// An object or a function.
    pub entity: Entity,
}

/// An object of static storage duration (3.1.2.4).
#[derive(Drop)]
pub struct StaticObject {
    /// Its name and its type.
    pub variable: VariableDecl,
    /// What its scalars start with. Those that are not named start as zero.
    pub parts: Parts,
    /// Whether it has an initialiser.
    pub defined: bool,
}

/// What is known of a program at a place of its text.
#[derive(Drop)]
pub struct Translator {
    /// Types, names and tags.
    pub typer: Typer,
    /// The functions that the program defines, in all of its units.
    pub definitions: Definitions,
    /// The objects of static storage duration so far.
    pub objects: Objects,
    /// What names with linkage refer to in this unit.
    pub links: Scopes<Linked>,
    /// The declarations with internal linkage so far, in this unit.
    pub internals: Externals,
    /// The declarations with external linkage so far, in all units.
    pub externals: Externals,
    /// The declarations of functions that are bound to a routine so far.
    pub routines: Externals,
    /// The automatic variables of this function so far.
    pub locals: Locals,
}

impl Translator {
    /// What is known before the first unit: the functions that are defined. Fails if memory runs out.
    ///
    /// Example: there is no object yet.
    pub fn new(
        alloc: Global,
        table: Table,
        definitions: Definitions,
    ) -> Result<Translator, NoMemory>
        ensures { IfOk result (λ m. m ≡ before_units table definitions) }
    {
        Ok(Translator {
            typer: Typer::new(alloc, table)?,
            definitions,
            objects: Objects::new(alloc),
            links: Scopes::new(alloc),
            internals: Externals::new(alloc),
            externals: Externals::new(alloc),
            routines: Externals::new(alloc),
            locals: Locals::new(alloc),
        })
    }
}
