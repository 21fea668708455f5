//! The code of a function while it is made.

ghost use Rattle.std.specs.Prelude.{◌≡◌, ◌≤◌, suc, [], ◌∷◌, ◌++◌, length, Some, OnOk, OnErr, IfOk};
ghost use Rattle.hs_lower.specs.Writing.{Done, with_pieces};

use hs_base::{NoMemory, Pos};
use hs_code::{Case, Op, Placed};
use hs_lower_expressions::{EmitEnd, Ops};
use std::alloc::Global;
use std::marker::Model;

/// The most cases: each has a number of 32 bits.
const MOST: usize = 4_294_967_295;

/// The cases of the switches of a function while they are made. Contracts see the list.
#[derive(Drop)]
pub(crate) struct CaseList {
    vec: Vec<Case>,
}

impl Model for CaseList {
    ghost use Rattle.std.specs.Prelude.{List, ◌≤◌, length};
    ghost use Rattle.hs_code.specs.declared.function_code.Case.{Case};

    ghost Value = { List Case };

    ghost view = { λ it. it.vec.items };

    ghost invariant = { λ it. length it.vec.items ≤ 4294967295 };
}

impl CaseList {
    /// No cases. Takes no memory.
    pub(crate) fn new(alloc: Global) -> CaseList
        ensures { result ≡ [] }
    {
        CaseList {
            vec: Vec::new(alloc),
        }
    }

    /// How many there are.
    pub(crate) fn len(&self) -> u32
        ensures { result ≡ length self.now }
    {
        self.vec.len() as u32
    }

    /// Puts a case at the end. Fails if memory runs out; more than 4294967295 cases do not fit in it.
    pub(crate) fn push(&mut self, its: Case) -> Result<(), NoMemory>
        ensures pushed { OnOk result (self.new ≡ self.old ++ (its ∷ [])) }
        ensures unchanged { OnErr result (self.new ≡ self.old) }
    {
        if self.vec.len() >= MOST {
            return Err(NoMemory);
        }
        self.vec.push(its)?;
        Ok(())
    }

    /// The cases as a vector. Takes no memory.
    pub(crate) fn into_vec(self) -> Vec<Case>
        ensures { result.items ≡ self }
    {
        self.vec
    }
}

/// The code of a function while it is made: its operations, the cases of its switches, and how many pieces of text there were.
#[derive(Drop)]
pub(crate) struct Text {
    pub ops: Ops,
    pub cases: CaseList,
    pub pieces: u32,
}

impl Text {
    /// The number of the next piece of text. Fails with `NoMemory` if there are more than 4294967295: so many do not fit in it.
    pub(crate) fn piece(&mut self) -> Result<u32, EmitEnd>
        ensures done { Done (Some (with_pieces (suc self.old.pieces) self.old)) self.new result }
        ensures number { IfOk result (λ piece. piece ≡ self.old.pieces) }
    {
        let piece = self.pieces;
        let Some(next) = piece.checked_add(1) else {
            return Err(EmitEnd::NoMemory);
        };
        self.pieces = next;
        Ok(piece)
    }
}
