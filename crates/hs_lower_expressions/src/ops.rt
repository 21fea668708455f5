//! The operations of a function while they are made.

ghost use Rattle.std.specs.Prelude.{◌≡◌, ◌≤◌, ◌<◌, [], ◌∷◌, length, map, slice_set, Err, OnOk, OnErr};
ghost use Rattle.hs_lower_expressions.specs.Aims.{unknown, targets_of, target_of, aimed, aimed_from};
ghost use Rattle.hs_lower_expressions.specs.Emits.{Emits, Grows, most_ops};
ghost use Rattle.hs_lower_expressions.specs.declared.emit_end.EmitEnd.TheVariants.{Limit as limit};

use crate::EmitEnd;
use hs_base::LimitKind;
use hs_code::{Op, Placed};
use std::alloc::Global;
use std::marker::Model;

/// The operations to which a loop or a switch sends control: the one after it, and the one with which a loop goes on.
#[derive(Clone, Copy)]
pub struct Exits {
    pub breaks: u32,
    pub continues: u32,
}

impl Exits {
    /// Numbers that stand for both while the loop or the switch is being written. No operation has them.
    pub fn unknown() -> Exits
        ensures { result ≡ unknown }
    {
        Exits {
            breaks: 4_294_967_295,
            continues: 4_294_967_294,
        }
    }

    /// The operation of that number, or the one for which the number stands.
    fn target(self, number: u32) -> u32
        ensures { result ≡ target_of (targets_of self) number }
    {
        let unknown = Exits::unknown();
        if number == unknown.breaks {
            self.breaks
        } else if number == unknown.continues {
            self.continues
        } else {
            number
        }
    }
}

/// Gives each jump its target.
fn aim_all(its: &mut [Placed], exits: Exits)
    ensures { its.new ≡ map (aimed (targets_of exits)) its.old }
{
    for its in its.iter_mut() {
        its.op = match its.op {
            Op::Jump(number) => Op::Jump(exits.target(number)),
            Op::Zero(number) => Op::Zero(exits.target(number)),
            other => other,
        };
    }
}

/// The operations of a function while they are made, at most 1000000. Each one is named by its number, from 0. Contracts see the list.
#[derive(Drop)]
pub struct Ops {
    vec: Vec<Placed>,
}

impl Model for Ops {
    ghost use Rattle.std.specs.Prelude.{List, ◌≤◌, length};
    ghost use Rattle.hs_code.specs.declared.function_code.Placed.{Placed};

    ghost Value = { List Placed };

    ghost view = { λ it. it.vec.items };

    ghost invariant = { λ it. length it.vec.items ≤ 1000000 };
}

impl Ops {
    /// No operations. Takes no memory.
    pub fn new(alloc: Global) -> Ops
        ensures { result ≡ [] }
    {
        Ops {
            vec: Vec::new(alloc),
        }
    }

    /// How many operations there are: the number of the next one.
    pub fn len(&self) -> u32
        ensures len { result ≡ length self.now }
        ensures few { result ≤ most_ops }
    {
        self.vec.len() as u32
    }

    /// Puts an operation at the end. Fails if there are 1000000 operations already, or if memory runs out.
    pub fn push(&mut self, its: Placed) -> Result<(), EmitEnd>
        ensures pushed { Emits result self.old self.new (its ∷ []) }
        ensures grows { OnOk result (Grows self.old self.new) }
        ensures full { most_ops ≤ length self.old → result ≡ Err limit }
        ensures unchanged { OnErr result (self.new ≡ self.old) }
    {
        if self.vec.len() as u64 >= LimitKind::Ops.number() {
            return Err(EmitEnd::Limit);
        }
        self.vec.push(its)?;
        Ok(())
    }

    /// Replaces the operation of that number, which must be there, as a jump once its target is known.
    pub fn set(&mut self, number: u32, its: Placed)
        requires there { number < length self.old }
        ensures { self.new ≡ slice_set self.old number its }
    {
        self.vec[number as usize] = its;
    }

    /// Gives the jumps out of a loop or a switch their targets, once these are known. `from` is the first operation of the loop; its jumps go
    /// to the numbers of `Exits::unknown`.
    pub fn aim(&mut self, from: u32, exits: Exits)
        requires there { from ≤ length self.old }
        ensures aimed { self.new ≡ aimed_from (targets_of exits) from self.old }
        ensures long { length self.new ≡ length self.old }
    {
        aim_all(&mut self.vec[from as usize..], exits);
    }

    /// The operations as a vector. Takes no memory.
    pub fn into_vec(self) -> Vec<Placed>
        ensures same { result.items ≡ self }
        ensures few { length self ≤ most_ops }
    {
        self.vec
    }

    /// Lends the operations.
    pub fn items(&self) -> &[Placed]
        ensures lends { result.now ≡ self.now }
        ensures few { length self.now ≤ most_ops }
    {
        self.vec.as_slice()
    }
}
