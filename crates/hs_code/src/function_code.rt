//! The code of a function.

ghost use Rattle.std.specs.Prelude.{◌≡◌, ◌≤◌, length};

use crate::Op;
use hs_base::Pos;
use std::marker::Model;

/// An operation with what is known of its place.
#[derive(Clone, Copy)]
pub struct Placed {
    pub op: Op,
    /// The place in the text to which a stop of the operation belongs.
    pub at: Pos,
    /// The number of the piece of text from which it comes.
    pub piece: u32,
    /// How many values are on the stack of the call before it.
    pub places: u32,
}

/// A case of a switch.
#[derive(Clone, Copy)]
pub struct Case {
    /// The number, as 32 bits.
    pub bits: u32,
    /// The operation to which it goes.
    pub target: u32,
}

/// The operations of a function, of which there are at most 4294967295. Contracts see the list.
#[derive(Drop)]
pub struct Operations {
    vec: Vec<Placed>,
}

impl Model for Operations {
    ghost use Rattle.std.specs.Prelude.{List, ◌≤◌, length};
    ghost use Rattle.hs_code.specs.declared.function_code.Placed.{Placed};

    ghost Value = { List Placed };

    ghost view = { λ it. it.vec.items };

    ghost invariant = { λ it. length it.vec.items ≤ 4294967295 };
}

impl Operations {
    /// The list of these items. Takes no memory.
    pub fn from_vec(items: Vec<Placed>) -> Operations
        requires few { length items.items ≤ 4294967295 }
        ensures { result ≡ items.items }
    {
        Operations { vec: items }
    }

    /// Lends the items.
    pub fn items(&self) -> &[Placed]
        ensures lends { result.now ≡ self.now }
        ensures few { length self.now ≤ 4294967295 }
    {
        self.vec.as_slice()
    }
}

/// The cases of the switches of a function, switch by switch. Contracts see the list.
#[derive(Drop)]
pub struct Cases {
    vec: Vec<Case>,
}

impl Model for Cases {
    ghost use Rattle.std.specs.Prelude.{List};
    ghost use Rattle.hs_code.specs.declared.function_code.Case.{Case};

    ghost Value = { List Case };

    ghost view = { λ it. it.vec.items };
}

impl Cases {
    /// The list of these items. Takes no memory.
    pub fn from_vec(items: Vec<Case>) -> Cases
        ensures { result ≡ items.items }
    {
        Cases { vec: items }
    }

    /// Lends the items.
    pub fn items(&self) -> &[Case]
        ensures { result.now ≡ self.now }
    {
        self.vec.as_slice()
    }
}

/// The code of a function: its operations, and the cases of its switches. A call begins at operation 0.
#[derive(Drop)]
pub struct FunctionCode {
    pub ops: Operations,
    pub cases: Cases,
}
