//! The structs that are one.

ghost use Rattle.std.specs.Prelude.{◌≡◌, [], IfOk};
ghost use Rattle.hs_same_types.specs.Representatives.{structs_of};

use hs_base::NoMemory;
use hs_typer::{Origins, next_place};
use std::alloc::Global;

/// What stands for each struct.
pub(crate) fn structs_of(alloc: Global, o: &Origins) -> Result<Vec<u32>, NoMemory>
    ensures { IfOk result (λ all. all.items ≡ structs_of o.now [] o.now.structs) }
{
    let mut done = Vec::new(alloc);
    let mut number = 0u32;
    let mut rest = o.structs.items();
    'rest: while let Some((_, others)) = rest.split_first() {
        done.push(o.stands_for(number))?;
        number = next_place(number)?;
        rest = others;
    }
    Ok(done)
}
