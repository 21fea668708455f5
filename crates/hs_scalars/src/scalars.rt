//! The scalars of an object, one after the other.

ghost use Rattle.std.specs.Prelude.{◌≡◌, ◌+◌, IfOk, length};
ghost use Rattle.hs_meaning.specs.Scalars.{scalars_of};
ghost use Rattle.hs_scalars.specs.Left.{left, IsNext};

use crate::Scalar;
use crate::pending::{Opened, Pending};
use hs_base::NoMemory;
use hs_types::{TypeId, Types};
use std::alloc::Global;
use std::marker::Model;

/// The scalars of an object that are still to come, in the order of their bytes. Contracts see the list, which is never in memory: only
/// parts of the object are, one for each type around the next scalar.
#[derive(Drop)]
pub struct Scalars<'a> {
    types: &'a Types,
    pending: Vec<Pending>,
}

impl<'a> Model for Scalars<'a> {
    ghost use Rattle.std.specs.Prelude.{List};
    ghost use Rattle.hs_meaning.specs.Scalars.{Scalar};
    ghost use Rattle.hs_scalars.specs.Left.{left};

    ghost Value = { List Scalar };

    ghost view = { λ it. left it.types.now it.pending.items };
}

/// One more than there are types: no object holds as many others inside one another. There are no more than 4000000000 types.
fn levels(types: &Types) -> Result<u32, NoMemory>
    ensures { IfOk result (λ levels. levels ≡ length types.now.rows + 1) }
{
    let count = types.len();
    if count >= 4_000_000_000 {
        return Err(NoMemory);
    }
    Ok(count as u32 + 1)
}

/// Takes the pending parts apart until one is a scalar.
fn next_of(types: &Types, pending: &mut Vec<Pending>) -> Result<Option<Scalar>, NoMemory>
    ensures { IfOk result (λ found. IsNext found
        (left types.now pending.old.items) (left types.now pending.new.items)) }
{
    'parts: while let Some(part) = pending.pop() {
        match part.opened(types)? {
            Opened::Empty => (),
            Opened::Found(it) => return Ok(Some(it)),
            Opened::List(its) => {
                pending.push(its)?;
            }
            Opened::Parts { first, rest } => {
                pending.push(rest)?;
                pending.push(first)?;
            }
        }
    }
    Ok(None)
}

impl<'a> Scalars<'a> {
    /// The scalars of an object of a type. `void`, functions, arrays of unknown length, and structs without their bodies have none. Fails if
    /// memory runs out.
    ///
    /// Example: of `struct { char a; long b[2]; }` a `char` at byte 0, which is a field, and two of type `long` at bytes 2 and 6.
    pub fn new(alloc: Global, types: &'a Types, type_id: TypeId) -> Result<Scalars<'a>, NoMemory>
        ensures { IfOk result (λ its. its ≡ scalars_of types.now type_id) }
    {
        let levels = levels(types)?;
        let mut pending = Vec::new(alloc);
        pending.push(Pending::One {
            levels,
            at: 0,
            type_id,
            field: None,
        })?;
        Ok(Scalars { types, pending })
    }

    /// The next scalar, or `None` if there are no more. Fails if memory runs out. An object of more than 4294967295 bytes does not fit in
    /// memory, so that is also the error if a sum of bytes would pass that number. After an error nothing is said of what is still to come.
    ///
    /// Example: `None` for an object of type `void`.
    pub fn next(&mut self) -> Result<Option<Scalar>, NoMemory>
        ensures { IfOk result (λ found. IsNext found self.old self.new) }
    {
        next_of(self.types, &mut self.pending)
    }
}
