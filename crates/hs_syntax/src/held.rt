//! Holding what was read while more is read.
//!
//! A function that ends early drops what it still holds, and its proof goes through the whole type of that. For a syntax tree
//! this is a long way. Here the type is a variable, so the proof is short: a function that reads lends its trees to `with`.
ghost use Rattle.std.specs.Prelude.{◌≡◌, Ok, Err, IfOk, IfErr};

use hs_base::NoMemory;
use std::alloc::Global;

/// Returns what is held together with what was read next. On an error, what is held is dropped.
pub fn with<A: Drop, B: Drop, E: Drop>(held: A, next: Result<B, E>) -> Result<(A, B), E>
    ensures both { IfOk next (λ it. result ≡ Ok (held, it)) }
    ensures fails { IfErr next (λ e. result ≡ Err e) }
{
    match next {
        Ok(it) => Ok((held, it)),
        Err(e) => Err(e),
    }
}

/// Puts each of two values into a box.
pub fn boxed_two<A: Drop, B: Drop>(
    alloc: Global,
    one: A,
    two: B,
) -> Result<(Box<A>, Box<B>), NoMemory>
    ensures { IfOk result (λ x. (x.0.value ≡ one) × (x.1.value ≡ two)) }
{
    Ok((Box::new(alloc, one)?, Box::new(alloc, two)?))
}

/// Puts each of three values into a box.
pub fn boxed_three<A: Drop, B: Drop, C: Drop>(
    alloc: Global,
    one: A,
    two: B,
    three: C,
) -> Result<(Box<A>, Box<B>, Box<C>), NoMemory>
    ensures { IfOk result (λ x. (x.0.value ≡ one) × (x.1.value ≡ two) × (x.2.value ≡ three)) }
{
    Ok((
        Box::new(alloc, one)?,
        Box::new(alloc, two)?,
        Box::new(alloc, three)?,
    ))
}
