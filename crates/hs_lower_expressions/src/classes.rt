//! The numbers of the classes of pointers.

ghost use Rattle.std.specs.Prelude.{◌≡◌, [], OnOk, OnErr, IfOk};
ghost use Rattle.std.specs.List.{position_or_len};
ghost use Rattle.indexmap.specs.IndexSet.{insert_key};
ghost use Rattle.hs_meaning.specs.Classes.{same_class};

use hs_base::NoMemory;
use hs_tree::Class;
use indexmap::IndexSet;
use std::alloc::Global;
use std::marker::Model;

/// The most classes: each has a number of 32 bits.
const MOST: usize = 4_294_967_295;

/// The classes of a program, each once and named by its place. All are added before the first expression is lowered, in the order in which
/// the program first names them. Contracts see the list. To find the number of one takes no longer if there are many.
#[derive(Drop)]
pub struct Classes {
    set: IndexSet<Class>,
}

impl Model for Classes {
    ghost use Rattle.std.specs.Prelude.{List, ◌≤◌, length};
    ghost use Rattle.hs_tree.specs.declared.class.Class.{Class};

    ghost Value = { List Class };

    ghost view = { λ it. it.set.keys };

    ghost invariant = { λ it. length it.set.keys ≤ 4294967295 };
}

impl Classes {
    /// No classes. Takes no memory.
    pub fn new(alloc: Global) -> Classes
        ensures { result ≡ [] }
    {
        Classes {
            set: IndexSet::new(alloc),
        }
    }

    /// Adds a class at the end, unless it is there. Fails if memory runs out; more than 4294967295 classes do not fit in it.
    pub fn add(&mut self, class: Class) -> Result<(), NoMemory>
        ensures added { OnOk result (self.new ≡ insert_key same_class self.old class) }
        ensures unchanged { OnErr result (self.new ≡ self.old) }
    {
        if self.set.len() >= MOST {
            return Err(NoMemory);
        }
        self.set.insert(class)?;
        Ok(())
    }

    /// The classes as a vector. Fails if memory runs out.
    pub fn to_vec(&self, alloc: Global) -> Result<Vec<Class>, NoMemory>
        ensures { IfOk result (λ its. its.items ≡ self.now) }
    {
        let mut its = Vec::new(alloc);
        its.extend_from_slice(self.set.as_slice())?;
        Ok(its)
    }

    /// The number of the class. For a class that was not added it is how many classes there are.
    pub fn number(&self, class: &Class) -> u32
        ensures { result ≡ position_or_len (same_class class.now) self.now }
    {
        match self.set.get_index_of(class) {
            Some(place) => place as u32,
            None => self.set.len() as u32,
        }
    }
}
