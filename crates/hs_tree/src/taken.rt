//! The fields whose addresses are taken.

ghost use Rattle.std.specs.Prelude.{◌≡◌, [], OnOk, OnErr};
ghost use Rattle.std.specs.List.{list_any};
ghost use Rattle.indexmap.specs.IndexSet.{insert_key};
ghost use Rattle.hs_tree.specs.Classes.{same_field};

use hs_base::NoMemory;
use hs_types::FieldId;
use indexmap::IndexSet;
use std::alloc::Global;
use std::marker::Model;

/// The fields whose addresses a program takes. Contracts see the list. To look for one takes no longer if there are many.
#[derive(Drop)]
pub struct TakenFields {
    set: IndexSet<FieldId>,
}

impl Model for TakenFields {
    ghost use Rattle.std.specs.Prelude.{List};
    ghost use Rattle.hs_types.specs.declared.row.FieldId.{FieldId};

    ghost Value = { List FieldId };

    ghost view = { λ it. it.set.keys };
}

impl TakenFields {
    /// No fields. Takes no memory.
    pub fn new(alloc: Global) -> TakenFields
        ensures { result ≡ [] }
    {
        TakenFields {
            set: IndexSet::new(alloc),
        }
    }

    /// Adds a field, unless it is there. Fails if memory runs out.
    pub fn add(&mut self, field: FieldId) -> Result<(), NoMemory>
        ensures added { OnOk result (self.new ≡ insert_key same_field self.old field) }
        ensures unchanged { OnErr result (self.new ≡ self.old) }
    {
        self.set.insert(field)?;
        Ok(())
    }

    /// Whether the field is there.
    pub fn has(&self, field: FieldId) -> bool
        ensures { result ≡ list_any (same_field field) self.now }
    {
        self.set.contains(&field)
    }
}
