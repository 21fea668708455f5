//! The objects of a program: its variables that are no slots, and its string literals.

ghost use Rattle.std.specs.Prelude.{◌≡◌, ◌++◌, map, IfOk, OnOk};
ghost use Rattle.hs_heap.specs.declared.cell.Cell.TheVariants.{Byte};
ghost use Rattle.hs_meaning.specs.Objects.{literal_object, starting_objects};
ghost use Rattle.hs_state.specs.Settings.{setting_here};

use crate::bases::Bases;
use hs_base::{Bytes, NoMemory};
use hs_heap::Cell;
use hs_objects::{Object, Objects, Storage};
use hs_tree::Global as Variable;
use std::alloc::Global;

/// The bytes, each in a cell.
fn byte_cells(alloc: Global, bytes: &[u8]) -> Result<Vec<Cell>, NoMemory>
    ensures { IfOk result (λ cells. cells.items ≡ map Byte bytes.now) }
{
    let mut cells = Vec::with_capacity(alloc, bytes.len())?;
    'bytes: for byte in bytes {
        cells.push(Cell::Byte(*byte))?;
    }
    Ok(cells)
}

/// Adds the objects of variables that are no slots.
pub(crate) fn add_variables(
    alloc: Global,
    bases: &Bases,
    objects: &mut Objects,
    its: &[Variable],
) -> Result<(), NoMemory>
    ensures { OnOk result (objects.new ≡ objects.old ++ starting_objects (setting_here bases.now.setting) its.now) }
{
    'variables: for it in its {
        if !it.variable.is_slot(bases.setting.types) {
            let cells = bases.cells_of(alloc, it.size, it.parts.items())?;
            objects.push(Object::new(Storage::Permanent, cells))?;
        }
    }
    Ok(())
}

/// Adds the objects of string literals.
pub(crate) fn add_literals(
    alloc: Global,
    objects: &mut Objects,
    its: &[Bytes],
) -> Result<(), NoMemory>
    ensures { OnOk result (objects.new ≡ objects.old ++ map literal_object its.now) }
{
    'literals: for it in its {
        let cells = byte_cells(alloc, it.items())?;
        objects.push(Object::new(Storage::Permanent, cells))?;
    }
    Ok(())
}
