//! The cells of objects that start with constants.

ghost use Rattle.std.specs.Prelude.{◌≡◌, pos, replicate, IfOk};
ghost use Rattle.hs_heap.specs.declared.cell.Cell.TheVariants.{Byte};
ghost use Rattle.hs_meaning.specs.Accesses.{with_cells_from};
ghost use Rattle.hs_meaning.specs.Objects.{access_of_part, constant_value, with_parts};
ghost use Rattle.hs_meaning.specs.Values.{cells_for};
ghost use Rattle.hs_state.specs.Settings.{setting_here};

use crate::bases::Bases;
use hs_base::NoMemory;
use hs_heap::Cell;
use hs_tree::Part;
use hs_values::Parcel;
use std::alloc::Global;

/// Puts cells there, over those that are there. If they reach past the end, there are more cells afterwards; no part of a typed program does.
fn put_cells(cells: Vec<Cell>, at: usize, new: &[Cell]) -> Result<Vec<Cell>, NoMemory>
    ensures { IfOk result (λ its. its.items ≡ with_cells_from (pos at) new.now cells.items) }
{
    let mut cells = cells;
    if at <= cells.len() && new.len() <= cells.len() - at {
        cells[at..at + new.len()].copy_from_slice(new);
    } else {
        cells.truncate(at);
        cells.extend_from_slice(new)?;
    }
    Ok(cells)
}

impl Bases<'_> {
    /// Puts a constant where it lies in an object. One of another sort than its type, which no typed program has, changes nothing.
    fn put_part(&self, cells: Vec<Cell>, part: &Part) -> Result<Vec<Cell>, NoMemory>
        ensures { IfOk result (λ its. its.items ≡ with_cells_from (pos part.now.offset) (cells_for (access_of_part (setting_here self.now.setting) part.now) (constant_value (setting_here self.now.setting) part.now.value)) cells.items) }
    {
        let value = self.value(part.value)?;
        let access = self
            .setting
            .access_of_type(part.type_id, self.setting.class_of_part(part));
        match Parcel::of(access, &value) {
            Ok(parcel) => put_cells(cells, part.offset as usize, parcel.cells()),
            Err(_) => Ok(cells),
        }
    }

    /// Puts each of the constants where it lies.
    fn put_parts(&self, cells: Vec<Cell>, parts: &[Part]) -> Result<Vec<Cell>, NoMemory>
        ensures { IfOk result (λ its. its.items ≡ with_parts (setting_here self.now.setting) parts.now cells.items) }
    {
        let mut made = cells;
        'parts: for part in parts {
            made = self.put_part(made, part)?;
        }
        Ok(made)
    }

    /// So many bytes that are 0, but for the constants.
    pub(crate) fn cells_of(
        &self,
        alloc: Global,
        size: u32,
        parts: &[Part],
    ) -> Result<Vec<Cell>, NoMemory>
        ensures { IfOk result (λ its. its.items ≡ with_parts (setting_here self.now.setting) parts.now (replicate size (Byte 0))) }
    {
        let cells = vec![in alloc; Cell::Byte(0); size as usize]?;
        self.put_parts(cells, parts)
    }
}
