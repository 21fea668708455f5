//! The facts that chains reach, by operation. `specs/Reaching.antt` says what they mean.

ghost use Rattle.std.specs.Prelude.{◌≡◌, ◌<◌, ◌≤◌, Some, length, slice_get};
ghost use Rattle.hs_search.specs.Finding.{operations_of};

use crate::coding::fact_of;
use hs_flow::Fact;
use hs_search::Found;

/// A fact before an operation, in a call that was entered with a fact.
#[derive(Clone, Copy)]
pub struct Pair {
    /// The fact with which the call was entered. Of `main` it is the fact with which every chain begins.
    pub entry: Fact,
    /// The fact before the operation.
    pub fact: Fact,
    /// How many steps a shortest chain that ends in the pair has: 1 to 1000000, or 1000001 if each of them has more than 1000000.
    pub length: u32,
}

/// The facts that chains reach in a program: a list of pairs for each operation.
#[derive(Drop)]
pub struct Reached {
    /// The pairs, with operations and facts as numbers.
    pub(crate) found: Found,
    /// The number of the first operation of each function.
    pub(crate) starts: Vec<u32>,
    /// Operations have numbers of 32 bits.
    pub(crate) ghost few: { operations_of found ≤ 4294967295 },
}

impl Reached {
    ghost use Rattle.hs_taint.specs.Reaching.{IsInRange, number_in, pairs_in};

    /// How many pairs there are at an operation of a function.
    ///
    /// Example: 0 at an operation that control never reaches, and at least 1 at operation 0 of `main`.
    pub fn count(&self, function: u32, at: u32) -> usize
        requires range { IsInRange self.now function at }
        ensures { result ≡ length (pairs_in self.now function at) }
    {
        self.found.count(self.number(function, at))
    }

    /// The pair of that place among those at an operation.
    ///
    /// Example: the place 0 at operation 0 of `main` is the fact that control comes there, with length 1.
    pub fn pair(&self, function: u32, at: u32, place: usize) -> Pair
        requires range { IsInRange self.now function at }
        requires place { place < length (pairs_in self.now function at) }
        ensures { slice_get (pairs_in self.now function at) place ≡ Some result }
    {
        let pair = self.found.pair(self.number(function, at), place);
        Pair {
            entry: fact_of(pair.node.entered),
            fact: fact_of(pair.node.fact),
            length: pair.length,
        }
    }

    /// The number of an operation in the whole program.
    fn number(&self, function: u32, at: u32) -> u32
        requires range { IsInRange self.now function at }
        ensures { result ≡ number_in self.now function at }
    {
        self.starts[function as usize] + at
    }
}
