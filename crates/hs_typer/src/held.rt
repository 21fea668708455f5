//! Lists that are held while more is typed. There the type is a variable, so the proof is short.

ghost use Rattle.std.specs.Prelude.{◌≡◌, ◌++◌, ◌∷◌, [], IfOk};

use hs_base::NoMemory;

/// The list with one item more, which is taken out of its box. Fails if memory runs out.
///
/// Example: the operands of a call, with one that was just typed.
pub fn pushed<T: Drop>(its: Vec<T>, it: Box<T>) -> Result<Vec<T>, NoMemory>
    ensures { IfOk result (λ all. all.items ≡ its.items ++ it.value ∷ []) }
{
    let mut all = its;
    all.push(Box::into_inner(it))?;
    Ok(all)
}

/// The list with one item more. Fails if memory runs out.
///
/// Example: the derivations of a declarator, with one more `*`.
pub fn pushed_copy<T: Copy + Drop>(its: Vec<T>, it: T) -> Result<Vec<T>, NoMemory>
    ensures { IfOk result (λ all. all.items ≡ its.items ++ it ∷ []) }
{
    let mut all = its;
    all.push(it)?;
    Ok(all)
}
