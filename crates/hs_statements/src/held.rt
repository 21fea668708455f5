//! Trees that are put together. There the type is a variable, so the proof is short.

ghost use Rattle.std.specs.Prelude.{◌≡◌, ◌++◌, ◌∷◌, [], IfOk};

use hs_base::NoMemory;
use std::alloc::Global;

/// The tree in a box.
pub(crate) fn boxed<T: Drop>(alloc: Global, it: T) -> Result<Box<T>, NoMemory>
    ensures { IfOk result (λ made. made.value ≡ it) }
{
    Ok(Box::new(alloc, it)?)
}

/// The list with one item more.
pub(crate) fn with<T: Drop>(its: Vec<T>, it: T) -> Result<Vec<T>, NoMemory>
    ensures { IfOk result (λ all. all.items ≡ its.items ++ it ∷ []) }
{
    let mut all = its;
    all.push(it)?;
    Ok(all)
}
