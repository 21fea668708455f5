//! Which types of several units are one.

ghost use Rattle.std.specs.Prelude.{◌≡◌};
ghost use Rattle.hs_tree.specs.Representatives.{struct_for, type_for, field_for};

use crate::TypeIds;
use hs_base::Numbers;
use hs_types::{FieldId, TypeId};

/// Which types of a program are one (own). Each unit has types of its own, so a struct of a header is there once for each unit that includes
/// it. The first of those that are one stands for all. A struct or a type past the end of its list stands for itself.
#[derive(Drop)]
pub struct Representatives {
    /// For each struct, the number of the one that stands for it.
    pub structs: Numbers,
    /// For each type, the one that stands for it.
    pub types: TypeIds,
}

impl Representatives {
    /// The struct that stands for the one of that number.
    pub fn struct_for(&self, number: u32) -> u32
        ensures { result ≡ struct_for self.now number }
    {
        match self.structs.items().get(number as usize) {
            Some(first) => *first,
            None => number,
        }
    }

    /// The type that stands for that type.
    pub fn type_for(&self, id: TypeId) -> TypeId
        ensures { result ≡ type_for self.now id }
    {
        match self.types.items().get(id.number as usize) {
            Some(first) => *first,
            None => id,
        }
    }

    /// The field that stands for that field.
    pub fn field_for(&self, field: FieldId) -> FieldId
        ensures { result ≡ field_for self.now field }
    {
        FieldId {
            of: self.struct_for(field.of),
            place: field.place,
        }
    }
}
