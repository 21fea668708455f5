//! Lists of cells.

ghost use Rattle.std.specs.Prelude.{◌≡◌};

use hs_heap::Cell;
use std::marker::Model;

/// Cells, one after the other. Contracts see the list.
#[derive(Drop)]
pub struct Cells {
    vec: Vec<Cell>,
}

impl Model for Cells {
    ghost use Rattle.std.specs.Prelude.{List};
    ghost use Rattle.hs_heap.specs.declared.cell.Cell.{Cell};

    ghost Value = { List Cell };

    ghost view = { λ it. it.vec.items };
}

impl Cells {
    /// The list of these items. Takes no memory.
    pub fn from_vec(items: Vec<Cell>) -> Cells
        ensures { result ≡ items.items }
    {
        Cells { vec: items }
    }

    /// Lends the items.
    pub fn items(&self) -> &[Cell]
        ensures { result.now ≡ self.now }
    {
        self.vec.as_slice()
    }
}
