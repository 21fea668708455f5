//! The objects of a program, and the automatic variables of a function.

ghost use Rattle.std.specs.Prelude.{◌≡◌, ◌++◌, ◌∷◌, [], length, slice_get, IfOk, OnOk};
ghost use Rattle.hs_linkage.specs.Objects.{object_as, object_with, is_defined, is_settled, local_as, marked, marked_at};

use crate::translator::StaticObject;
use hs_base::NoMemory;
use hs_tree::{Part, Parts, Variable, VariableDecl, Variables};
use hs_typer::Taken;
use hs_types::{TypeId, Types};
use std::alloc::Global;
use std::marker::Model;

/// The most objects or variables: the limits of a program are far below.
const MOST: usize = 4_000_000_000;

/// The objects of static storage duration. Contracts see the list.
#[derive(Drop)]
pub struct Objects {
    vec: Vec<StaticObject>,
}

impl Model for Objects {
    ghost use Rattle.std.specs.Prelude.{List};
    ghost use Rattle.hs_linkage.specs.declared.translator.StaticObject.{StaticObject};

    ghost Value = { List StaticObject };

    ghost view = { λ it. it.vec.items };
}

impl Objects {
    /// No objects. Takes no memory.
    pub fn new(alloc: Global) -> Objects
        ensures { result ≡ [] }
    {
        Objects {
            vec: Vec::new(alloc),
        }
    }

    /// The objects as a `Vec`. Takes no memory.
    pub fn into_vec(self) -> Vec<StaticObject>
        ensures { result.items ≡ self }
    {
        self.vec
    }

    /// Lends the objects.
    pub fn items(&self) -> &[StaticObject]
        ensures { result.now ≡ self.now }
    {
        self.vec.as_slice()
    }

    /// One more object, and its place. Fails if memory runs out.
    pub(crate) fn add(&mut self, object: StaticObject) -> Result<u32, NoMemory>
        ensures place { IfOk result (λ place. place ≡ length self.old) }
        ensures added { OnOk result (self.new ≡ self.old ++ object ∷ []) }
    {
        let count = self.vec.len();
        if count >= MOST {
            return Err(NoMemory);
        }
        self.vec.push(object)?;
        Ok(count as u32)
    }

    /// Whether the object of that place has an initialiser.
    ///
    /// Example: `false` after `int x;`.
    pub fn is_defined(&self, place: u32) -> bool
        ensures { result ≡ is_defined (slice_get self.now place) }
    {
        match self.vec.get(place as usize) {
            Some(it) => it.defined,
            None => false,
        }
    }

    /// A declaration gives the object of that place this type, unless it has an initialiser or a complete type.
    pub(crate) fn declare(&mut self, types: &Types, place: u32, id: TypeId)
        ensures { self.new ≡ object_as types.now id (slice_get self.old place) self.old place }
    {
        if (place as usize) < self.vec.len() && !self.is_settled(types, place) {
            self.vec[place as usize].variable.type_id = id;
        }
    }

    /// Whether the object of that place has an initialiser or a complete type.
    fn is_settled(&self, types: &Types, place: u32) -> bool
        ensures { result ≡ is_settled types.now (slice_get self.now place) }
    {
        match self.vec.get(place as usize) {
            Some(it) => it.defined || types.layout(it.variable.type_id).is_some(),
            None => false,
        }
    }

    /// The definition of the object of that place gives it this type and these parts.
    ///
    /// Example: `int a[] = { 1 };` gives it the type `int[1]` and one part.
    pub fn define(&mut self, place: u32, id: TypeId, parts: Vec<Part>)
        ensures { self.new ≡ object_with id parts.items (slice_get self.old place) self.old place }
    {
        if (place as usize) < self.vec.len() {
            let it = &mut self.vec[place as usize];
            it.variable.type_id = id;
            it.parts = Parts::from_vec(parts);
            it.defined = true;
        }
    }
}

/// The automatic variables of a function, the parameters first. Contracts see the list.
#[derive(Drop)]
pub struct Locals {
    vec: Vec<VariableDecl>,
}

impl Model for Locals {
    ghost use Rattle.std.specs.Prelude.{List};
    ghost use Rattle.hs_tree.specs.declared.head.VariableDecl.{VariableDecl};

    ghost Value = { List VariableDecl };

    ghost view = { λ it. it.vec.items };
}

impl Locals {
    /// No variables. Takes no memory.
    pub fn new(alloc: Global) -> Locals
        ensures { result ≡ [] }
    {
        Locals {
            vec: Vec::new(alloc),
        }
    }

    /// Lends the variables.
    pub fn items(&self) -> &[VariableDecl]
        ensures { result.now ≡ self.now }
    {
        self.vec.as_slice()
    }

    /// One more variable, and its place. Fails if memory runs out.
    pub fn add(&mut self, variable: VariableDecl) -> Result<u32, NoMemory>
        ensures place { IfOk result (λ place. place ≡ length self.old) }
        ensures added { OnOk result (self.new ≡ self.old ++ variable ∷ []) }
    {
        let count = self.vec.len();
        if count >= MOST {
            return Err(NoMemory);
        }
        self.vec.push(variable)?;
        Ok(count as u32)
    }

    /// The variables, each marked if its address is among these.
    ///
    /// Example: after `&x` the variable `x` is marked.
    #[tactic(auto, using(crate::proofs::Marked::marked_none, crate::proofs::Marked::marked_next))]
    pub fn marked(self, its: &[Taken]) -> Variables
        ensures { result ≡ marked its.now 0 self }
    {
        let mut all = self;
        'its: for it in its {
            all.mark(*it);
        }
        Variables::from_vec(all.vec)
    }

    /// Marks the variable whose address it is, if it is that of a variable.
    #[tactic(auto, using(crate::proofs::Marked::marked_global, crate::proofs::Marked::marked_field, crate::proofs::Marked::marked_local))]
    fn mark(&mut self, it: Taken)
        ensures { self.new ≡ marked (it ∷ []) 0 self.old }
    {
        match it {
            Taken::Variable(Variable::Local(place)) => self.mark_at(place),
            Taken::Variable(Variable::Global(_)) | Taken::Field(_) => {}
        }
    }

    /// Marks the variable of that place, if there is one.
    fn mark_at(&mut self, place: u32)
        ensures { self.new ≡ marked_at (slice_get self.old place) self.old place }
    {
        if (place as usize) < self.vec.len() {
            self.vec[place as usize].taken = true;
        }
    }

    /// The variable of that place is of this type.
    ///
    /// Example: an initialiser says how many elements an array has.
    pub fn set_type(&mut self, place: u32, id: TypeId)
        ensures { self.new ≡ local_as id (slice_get self.old place) self.old place }
    {
        if (place as usize) < self.vec.len() {
            self.vec[place as usize].type_id = id;
        }
    }
}
