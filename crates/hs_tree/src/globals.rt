//! The objects of static storage duration.

ghost use Rattle.std.specs.Prelude.{◌≡◌, ◌++◌, ◌∷◌, [], OnOk, OnErr};

use crate::{Parts, VariableDecl};
use hs_base::{Bytes, NoMemory};
use std::marker::Model;

/// A file-scope object or a static local: its declaration, its size in bytes, and what it starts with.
#[derive(Drop)]
pub struct Global {
    pub variable: VariableDecl,
    pub size: u32,
    pub parts: Parts,
}

/// The file-scope objects and the static locals, in the text order of their first declarations. Contracts see the list.
#[derive(Drop)]
pub struct Globals {
    vec: Vec<Global>,
}

impl Model for Globals {
    ghost use Rattle.std.specs.Prelude.{List};
    ghost use Rattle.hs_tree.specs.declared.globals.Global.{Global};

    ghost Value = { List Global };

    ghost view = { λ it. it.vec.items };
}

impl Globals {
    /// The list of these items. Takes no memory.
    pub fn from_vec(items: Vec<Global>) -> Globals
        ensures { result ≡ items.items }
    {
        Globals { vec: items }
    }

    /// Lends the items.
    pub fn items(&self) -> &[Global]
        ensures { result.now ≡ self.now }
    {
        self.vec.as_slice()
    }
}

/// The string literals that are objects, each with the byte 0 at its end, in the order of the text. Contracts see the list.
#[derive(Drop)]
pub struct Literals {
    vec: Vec<Bytes>,
}

impl Model for Literals {
    ghost use Rattle.std.specs.Prelude.{List};
    ghost use Rattle.std.specs.Prelude.{ℕ};

    ghost Value = { List (List ℕ) };

    ghost view = { λ it. it.vec.items };
}

impl Literals {
    /// The list of these items. Takes no memory.
    pub fn from_vec(items: Vec<Bytes>) -> Literals
        ensures { result ≡ items.items }
    {
        Literals { vec: items }
    }

    /// Puts a literal at the end. Fails if memory runs out.
    pub fn push(&mut self, bytes: Bytes) -> Result<(), NoMemory>
        ensures pushed { OnOk result (self.new ≡ self.old ++ bytes ∷ []) }
        ensures unchanged { OnErr result (self.new ≡ self.old) }
    {
        self.vec.push(bytes)?;
        Ok(())
    }

    /// Lends the items.
    pub fn items(&self) -> &[Bytes]
        ensures { result.now ≡ self.now }
    {
        self.vec.as_slice()
    }
}
