//! The typedef names that are known (X3.159-1989 3.5.6).

ghost use Rattle.std.specs.Prelude.{◌≡◌, ◌++◌, ◌∷◌, [], IfOk};
ghost use Rattle.hs_syntax.specs.Names.{is_among};

use hs_base::{Bytes, NoMemory};
use indexmap::IndexSet;
use std::alloc::Global;
use std::marker::Model;

/// The typedef names that are known (X3.159-1989 3.5.6), in the order in which they became so. To look for one takes no
/// longer if there are many.
#[derive(Drop)]
pub struct TypeNames {
    names: Vec<Bytes>,
    index: IndexSet<Vec<u8>>,
}

impl Model for TypeNames {
    ghost use Rattle.std.specs.Prelude.{List, ℕ};
    ghost use Rattle.hs_expr_parser.specs.Index.{IsIndexOf};

    ghost Value = { List (List ℕ) };

    ghost view = { λ it. it.names.items };

    ghost invariant = { λ it. IsIndexOf it.index.keys it.names.items };
}

impl TypeNames {
    /// No names. Takes no memory.
    pub fn new(alloc: Global) -> TypeNames
        ensures { result ≡ [] }
    {
        TypeNames {
            names: Vec::new(alloc),
            index: IndexSet::new(alloc),
        }
    }

    /// These names, in this order. Fails if memory runs out.
    ///
    /// Example: of the names `size_t` and `Handle`, both are known.
    pub fn from_vec(alloc: Global, names: Vec<Bytes>) -> Result<TypeNames, NoMemory>
        ensures { IfOk result (λ it. it ≡ names.items) }
    {
        let mut index = IndexSet::new(alloc);
        'names: for name in &names {
            index.insert(name.items().to_vec(alloc)?)?;
        }
        Ok(TypeNames { names, index })
    }

    /// The names, and this one after them. One that is known already stands there once more.
    pub fn with(self, alloc: Global, name: &[u8]) -> Result<TypeNames, NoMemory>
        ensures { IfOk result (λ names. names ≡ self ++ name.now ∷ []) }
    {
        let TypeNames {
            mut names,
            mut index,
        } = self;
        index.insert(name.to_vec(alloc)?)?;
        names.push(Bytes::from_vec(name.to_vec(alloc)?))?;
        Ok(TypeNames { names, index })
    }

    /// Whether the text is one of the names.
    pub(crate) fn is_known(&self, text: &[u8]) -> bool
        ensures { result ≡ is_among self.now text.now }
    {
        self.index.contains(text)
    }
}
