//! The members of a struct, as they are declared.

ghost use Rattle.std.specs.Prelude.{◌≡◌, ◌++◌, ◌∷◌, [], IfOk};
ghost use Rattle.hs_typer.specs.Specifiers.{has_member, member_as};

use hs_base::{Bytes, NoMemory};
use hs_index::Index;
use hs_types::{Member, TypeId};
use std::alloc::Global;
use std::marker::Model;

/// The members of a struct. Contracts see the list. To look for a name takes no longer if there are many.
#[derive(Drop)]
pub struct Members {
    vec: Vec<Member>,
    index: Index,
}

impl Model for Members {
    ghost use Rattle.std.specs.Prelude.{◌≡◌, List, ℕ, is_some};
    ghost use Rattle.hs_index.specs.Index.{at};
    ghost use Rattle.hs_typer.specs.Specifiers.{has_member};
    ghost use Rattle.hs_types.specs.declared.body.Member.{Member};

    ghost Value = { List Member };

    ghost view = { λ it. it.vec.items };

    ghost invariant = { λ it. (name : List ℕ) → is_some (at name it.index) ≡ has_member name it.vec.items };
}

impl Members {
    /// No members. Takes no memory.
    pub fn new(alloc: Global) -> Members
        ensures { result ≡ [] }
    {
        Members {
            vec: Vec::new(alloc),
            index: Index::new(alloc),
        }
    }

    /// Whether there is a member of that name.
    pub(crate) fn has(&self, name: &[u8]) -> bool
        ensures { result ≡ has_member name.now self.now }
    {
        self.index.place(name).is_some()
    }

    /// The members, and one more.
    pub(crate) fn with(
        self,
        alloc: Global,
        name: &[u8],
        type_id: TypeId,
    ) -> Result<Members, NoMemory>
        ensures { IfOk result (λ its. its ≡ self ++ member_as name.now type_id ∷ []) }
    {
        let Members { mut vec, mut index } = self;
        index.put(name.to_vec(alloc)?, 0)?;
        let name = Bytes::from_vec(name.to_vec(alloc)?);
        vec.push(Member { name, type_id })?;
        Ok(Members { vec, index })
    }

    /// The list of the members. Takes no memory.
    pub(crate) fn into_vec(self) -> Vec<Member>
        ensures { result.items ≡ self }
    {
        self.vec
    }
}
