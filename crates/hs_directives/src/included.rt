//! The files that a reached `#include` names, by number.

ghost use Rattle.std.specs.Prelude.{◌≡◌, [], List, ℕ, IfOk, OnOk};
ghost use Rattle.std.specs.Ordering.{nat_cmp};
ghost use Rattle.std.specs.BTreeSet.{insert_key};

use std::alloc::{AllocError, Global};
use std::collections::BTreeSet;
use std::marker::Model;

/// The numbers of the files that a reached `#include` names.
#[derive(Drop)]
pub(crate) struct Included {
    numbers: BTreeSet<u16>,
}

impl Model for Included {
    ghost Value = { List ℕ };

    ghost view = { λ included. included.numbers.keys };
}

impl Included {
    /// None.
    pub(crate) fn new(alloc: Global) -> Included
        ensures { result ≡ [] }
    {
        Included {
            numbers: BTreeSet::new(alloc),
        }
    }

    /// One more.
    pub(crate) fn insert(&mut self, number: u16) -> Result<(), AllocError>
        ensures { OnOk result (self.new ≡ insert_key nat_cmp self.old number) }
    {
        self.numbers.insert(number)?;
        Ok(())
    }

    /// The numbers, ascending.
    pub(crate) fn to_vec(&self, alloc: Global) -> Result<Vec<u16>, AllocError>
        ensures { IfOk result (λ numbers. numbers.items ≡ self.now) }
    {
        let mut numbers = Vec::new(alloc);
        'numbers: for number in self.numbers.iter() {
            numbers.push(*number)?;
        }
        Ok(numbers)
    }
}
