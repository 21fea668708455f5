//! Comparisons of pointers, which look at the blocks that they point into.

ghost use Rattle.std.specs.Prelude.{◌≡◌};
ghost use Rattle.hs_meaning.specs.Pointers.{compare_stops, current_stop, difference_of, difference_stops, orders, pointer_answer};
ghost use Rattle.hs_state.specs.Machines.{machine_of};
ghost use Rattle.hs_values.specs.Answers.{Halts, or_first, or_stop};

use crate::Machine;
use crate::accesses::stop_of;
use hs_heap::{Pointer, Spot};
use hs_meaning::Stop;
use hs_tree::Comparison;
use hs_values::{Halt, answered, are_apart, difference};

/// Whether a comparison is one of order, and not of equality.
fn orders(operator: Comparison) -> bool
    ensures { result ≡ orders operator }
{
    match operator {
        Comparison::Less | Comparison::Greater | Comparison::LessEqual | Comparison::GreaterEqual =>
            true,
        Comparison::Equal | Comparison::NotEqual => false,
    }
}

impl Machine<'_> {
    /// Tests whether the pointer is of the life and the epoch that its block has now. A pointer that is not into a block always is.
    ///
    /// # Errors
    ///
    /// `Disposed`, `Old` and `Stale`, in this order. `BadPointer` for a block that was never made.
    pub fn current(&self, its: Pointer) -> Result<(), Stop>
        ensures { result ≡ or_stop (current_stop its (machine_of self.now)) tt }
    {
        let Pointer::Spot(its) = its else {
            return Ok(());
        };
        if !self.is_made(its.block) {
            return Err(Stop::BadPointer);
        }
        // A load of no cells from the front tests all but the range.
        self.heap
            .load(&Spot { offset: 0, ..its }, &mut [])
            .map_err(stop_of)
    }

    /// What a comparison of two pointers answers (X3.159-1989 3.3.8 and 3.3.9).
    ///
    /// # Errors
    ///
    /// Those of `current`, first of the left one; `BadPointer` if two pointers that are not into one object or block are ordered.
    pub fn compare(&self, operator: Comparison, a: Pointer, b: Pointer) -> Result<bool, Stop>
        ensures { result ≡ or_first (compare_stops operator a b (machine_of self.now)) (pointer_answer operator a b) }
    {
        self.current(a)?;
        self.current(b)?;
        if orders(operator) && are_apart(a, b) {
            return Err(Stop::BadPointer);
        }
        Ok(answered(operator, a, b))
    }

    /// How many objects of that size are between two pointers, as 32 bits (3.3.6).
    ///
    /// # Errors
    ///
    /// Those of `current`, first of the left one; `BadPointer` if they are not into one object or block. `NoMemory` if there are 4294967296
    /// objects or more between them, which no pointers of a run have.
    pub fn difference(&self, size: u32, a: Pointer, b: Pointer) -> Result<u32, Halt>
        ensures { Halts (or_first (difference_stops a b (machine_of self.now)) (difference_of size a b)) result }
    {
        self.current(a)?;
        self.current(b)?;
        if are_apart(a, b) {
            return Err(Halt::Stopped(Stop::BadPointer));
        }
        difference(size, a, b).ok_or(Halt::NoMemory)
    }
}
