//! The table of routines.

ghost use Rattle.std.specs.Prelude.{◌≡◌};

use crate::Routine;
use std::marker::Model;

/// The table of routines, in the order of their names. Contracts see the list. A routine's number is its place, from 0.
#[derive(Drop)]
pub struct Table {
    routines: Vec<Routine>,
}

impl Model for Table {
    ghost use Rattle.std.specs.Prelude.{List};
    ghost use Rattle.hs_table.specs.declared.routine.Routine.{Routine};
    ghost use Rattle.hs_table.specs.Tables.{IsTable};

    ghost Value = { List Routine };

    ghost view = { λ table. table.routines.items };

    ghost invariant = { λ table. IsTable table.routines.items };
}

impl Table {
    ghost use Rattle.hs_table.specs.Tables.{IsTable};

    /// The table of these routines, which are one: their names ascend, and each of them is right. Takes no memory.
    ///
    /// Example: no routines are a table.
    pub fn from_vec(routines: Vec<Routine>) -> Table
        requires { IsTable routines.items }
        ensures { result ≡ routines.items }
    {
        Table { routines }
    }

    /// Lends the routines.
    ///
    /// Example: the first routine of the built-in table is `DrawString`.
    pub fn routines(&self) -> &[Routine]
        ensures lends { result.now ≡ self.now }
        ensures is_table { IsTable self.now }
    {
        self.routines.as_slice()
    }
}
