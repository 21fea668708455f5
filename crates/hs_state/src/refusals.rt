//! The allocations that are refused.

ghost use Rattle.std.specs.Prelude.{◌≡◌, ◌==◌, IfOk};
ghost use Rattle.std.specs.List.{list_any};

use hs_base::NoMemory;
use std::alloc::Global;
use std::collections::HashSet;
use std::marker::Model;

/// The numbers, from 1, of the allocations that are refused. Contracts see the list of the input. To look up a number takes the same time, however
/// long the list is.
#[derive(Drop)]
pub struct Refusals<'a> {
    numbers: &'a [u32],
    /// The same numbers.
    known: HashSet<u64>,
}

impl<'a> Model for Refusals<'a> {
    ghost use Rattle.std.specs.Prelude.{◌≡◌, ◌==◌, nat_eq, ℕ, List};
    ghost use Rattle.std.specs.HashSet.{contains};
    ghost use Rattle.std.specs.List.{list_any};

    ghost Value = { List ℕ };

    ghost view = { λ it. it.numbers.now };

    ghost invariant = { λ it. (number : ℕ) → contains nat_eq it.known number ≡ list_any (λ one. one == number) it.numbers.now };
}

impl<'a> Refusals<'a> {
    /// The refusals of these numbers.
    ///
    /// # Errors
    ///
    /// `NoMemory` if memory runs out.
    pub fn of(alloc: Global, numbers: &'a [u32]) -> Result<Refusals<'a>, NoMemory>
        ensures { IfOk result (λ its. its ≡ numbers.now) }
    {
        let mut known = HashSet::new(alloc);
        'numbers: for number in numbers {
            known.insert(u64::from(*number))?;
        }
        Ok(Refusals { numbers, known })
    }

    /// Returns whether the allocation of that number is refused. Takes no memory.
    ///
    /// Example: of the numbers 2 and 5, the allocation 5 is refused, and the allocation 1 is not.
    pub fn has(&self, number: u64) -> bool
        ensures { result ≡ list_any (λ one. one == number) self.now }
    {
        self.known.contains(&number)
    }
}
