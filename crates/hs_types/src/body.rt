//! The bodies of structs and enumerations (X3.159-1989 3.5.2.1 and 3.5.2.2).

ghost use Rattle.std.specs.Prelude.{◌≡◌, IfOk};
ghost use Rattle.hs_types.specs.Members.{field_place, Gains};

use crate::{Layout, TypeId};
use hs_base::{Bytes, NoMemory};
use hs_index::Index;
use std::alloc::Global;
use std::marker::Model;

/// A member of a struct, as it is declared: its name and its type.
#[derive(Drop)]
pub struct Member {
    pub name: Bytes,
    /// Its type.
    pub type_id: TypeId,
}

/// A member with what it takes in memory.
#[derive(Drop)]
pub(crate) struct Measured {
    pub(crate) name: Bytes,
    pub(crate) type_id: TypeId,
    pub(crate) layout: Layout,
}

/// A field of a struct: a member, and the byte from the start of the struct at which it lies.
#[derive(Drop)]
pub struct Field {
    pub name: Bytes,
    /// Its type.
    pub type_id: TypeId,
    pub layout: Layout,
    pub offset: u32,
}

/// The most fields of a struct: the limits of a program are far below.
const MOST: u32 = 4_000_000_000;

/// The fields of a struct, in their order. Contracts see the list. To look for one by its name takes no longer if there are many.
#[derive(Drop)]
pub struct Fields {
    vec: Vec<Field>,
    index: Index,
}

impl Model for Fields {
    ghost use Rattle.std.specs.Prelude.{List};
    ghost use Rattle.hs_types.specs.Members.{AreIndexed};
    ghost use Rattle.hs_types.specs.declared.body.Field.{Field};

    ghost Value = { List Field };

    ghost view = { λ it. it.vec.items };

    ghost invariant = { λ it. AreIndexed it.index it.vec.items };
}

impl Fields {
    /// The list of these items, with an index of their names. Fails if memory runs out.
    pub(crate) fn indexed(alloc: Global, items: Vec<Field>) -> Result<Fields, NoMemory>
        ensures { IfOk result (λ its. its ≡ items.items) }
    {
        let mut index = Index::new(alloc);
        let mut place = 0u32;
        'fields: for field in &items {
            if place >= MOST {
                return Err(NoMemory);
            }
            index = with_place(alloc, index, field.name.items(), place)?;
            place += 1;
        }
        Ok(Fields { vec: items, index })
    }

    /// Lends the items.
    pub fn items(&self) -> &[Field]
        ensures { result.now ≡ self.now }
    {
        self.vec.as_slice()
    }

    /// The place of the field of that name, if there is one.
    ///
    /// Example: 1 for `b` in `struct { char a; short b; }`.
    pub fn place(&self, name: &[u8]) -> Option<u32>
        ensures { result ≡ field_place name.now self.now }
    {
        self.index.place(name)
    }
}

/// The index with the name at that place, unless it has one already.
fn with_place(alloc: Global, index: Index, name: &[u8], place: u32) -> Result<Index, NoMemory>
    ensures { IfOk result (λ new. Gains name.now place index new) }
{
    if index.place(name).is_some() {
        return Ok(index);
    }
    let mut new = index;
    new.put(name.to_vec(alloc)?, place)?;
    Ok(new)
}

/// The body of a struct: its fields, and what the whole struct takes in memory.
#[derive(Drop)]
pub struct Body {
    pub fields: Fields,
    pub layout: Layout,
}

/// An enumeration constant: its name, and its value as 32 bits.
#[derive(Drop)]
pub struct Enumerator {
    pub name: Bytes,
    pub bits: u32,
}

/// The constants of an enumeration, in their order. Contracts see the list.
#[derive(Drop)]
pub struct Constants {
    vec: Vec<Enumerator>,
}

impl Model for Constants {
    ghost use Rattle.std.specs.Prelude.{List};
    ghost use Rattle.hs_types.specs.declared.body.Enumerator.{Enumerator};

    ghost Value = { List Enumerator };

    ghost view = { λ it. it.vec.items };
}

impl Constants {
    /// The list of these items. Takes no memory.
    pub fn from_vec(items: Vec<Enumerator>) -> Constants
        ensures { result ≡ items.items }
    {
        Constants { vec: items }
    }

    /// Lends the items.
    pub fn items(&self) -> &[Enumerator]
        ensures { result.now ≡ self.now }
    {
        self.vec.as_slice()
    }
}
