//! Hide sets: the numbers of the macros that may not replace a token.

ghost use Rattle.std.specs.Prelude.{◌≡◌, true, IfOk, OnOk, OnErr};
ghost use Rattle.std.specs.FinSet as set;

use smallvec::SmallVec;
use std::alloc::{AllocError, Global};
use std::cmp::Ordering;
use std::marker::Model;

/// The numbers of the macros that a token is not replaced by, each once and rising. The number of a macro is its index in the
/// table of definitions, which stays the same during one expansion.
#[derive(Drop)]
pub(crate) struct HideSet {
    numbers: SmallVec<u32, 4>,
}

impl Model for HideSet {
    ghost use Rattle.std.specs.FinSet as set;
    ghost use Rattle.std.specs.Ordering.{nat_cmp};
    ghost use Rattle.std.specs.List.Sorted.{IsStrictlySortedBy};
    ghost use Rattle.std.specs.Coded.{coded_ℕ};

    ghost Value = { set.FinSet nat_cmp };

    ghost coded = { set.code coded_ℕ };

    ghost view = { λ s. set.from_list s.numbers.items };

    ghost invariant = { λ s. IsStrictlySortedBy nat_cmp s.numbers.items };
}

impl HideSet {
    /// No numbers.
    pub(crate) fn new(alloc: Global) -> HideSet
        ensures { result ≡ set.empty }
    {
        HideSet {
            numbers: SmallVec::new(alloc),
        }
    }

    /// Whether the number is hidden.
    pub(crate) fn contains(&self, number: u32) -> bool
        ensures { result ≡ set.contains self.now number }
    {
        self.numbers.as_slice().binary_search(&number).is_ok()
    }

    /// Hides the number too.
    pub(crate) fn insert(&mut self, number: u32) -> Result<(), AllocError>
        ensures inserted { OnOk result (self.new ≡ set.insert self.old number) }
        ensures unchanged { OnErr result (self.new ≡ self.old) }
    {
        match self.numbers.as_slice().binary_search(&number) {
            Ok(_) => Ok(()),
            Err(index) => {
                self.numbers.insert(index, number)?;
                Ok(())
            }
        }
    }

    /// The same numbers.
    pub(crate) fn copy(&self) -> Result<HideSet, AllocError>
        ensures { IfOk result (λ copy. copy ≡ self.now) }
    {
        let numbers = SmallVec::from_slice(*self.numbers.allocator(), self.numbers.as_slice())?;
        Ok(HideSet { numbers })
    }

    /// Whether both rows have the same numbers. Most sets that meet are equal, so this saves the walks over two rows.
    pub(crate) fn is_same(&self, other: &HideSet) -> bool
        ensures { result ≡ true → self.now ≡ other.now }
    {
        self.numbers.as_slice() == other.numbers.as_slice()
    }

    /// Whether the other hides each number that this one hides.
    pub(crate) fn is_subset(&self, other: &HideSet) -> bool
        ensures { result ≡ set.is_subset self.now other.now }
    {
        // Both rows rise: a number that is less than the next one of the other row is not in it.
        let mut own = self.numbers.as_slice();
        let mut others = other.numbers.as_slice();
        'rows: while let [number, own_rest @ ..] = own {
            let [next, others_rest @ ..] = others else {
                return false;
            };
            match number.cmp(next) {
                Ordering::Less => return false,
                Ordering::Equal => own = own_rest,
                Ordering::Greater => {}
            }
            others = others_rest;
        }
        true
    }

    /// The numbers that both hide.
    pub(crate) fn intersection(&self, other: &HideSet) -> Result<HideSet, AllocError>
        ensures { IfOk result (λ both. both ≡ set.intersection self.now other.now) }
    {
        if self.is_same(other) {
            return self.copy();
        }
        self.common(other)
    }

    /// The numbers that one of them hides.
    pub(crate) fn union(&self, other: &HideSet) -> Result<HideSet, AllocError>
        ensures { IfOk result (λ either. either ≡ set.union self.now other.now) }
    {
        if self.is_same(other) {
            return self.copy();
        }
        self.merged(other)
    }

    /// The numbers that both hide, found by a walk over both rows.
    fn common(&self, other: &HideSet) -> Result<HideSet, AllocError>
        ensures { IfOk result (λ both. both ≡ set.intersection self.now other.now) }
    {
        let mut numbers = SmallVec::new(*self.numbers.allocator());
        let mut own = self.numbers.as_slice();
        let mut others = other.numbers.as_slice();
        'rows: while let [number, own_rest @ ..] = own {
            let [next, others_rest @ ..] = others else {
                break;
            };
            match number.cmp(next) {
                Ordering::Less => own = own_rest,
                Ordering::Greater => others = others_rest,
                Ordering::Equal => {
                    numbers.push(*number)?;
                    own = own_rest;
                    others = others_rest;
                }
            }
        }
        Ok(HideSet { numbers })
    }

    /// The numbers that one of them hides, found by a walk over both rows.
    fn merged(&self, other: &HideSet) -> Result<HideSet, AllocError>
        ensures { IfOk result (λ either. either ≡ set.union self.now other.now) }
    {
        let mut numbers = SmallVec::new(*self.numbers.allocator());
        let mut own = self.numbers.as_slice();
        let mut others = other.numbers.as_slice();
        'rows: while let [number, own_rest @ ..] = own {
            let [next, others_rest @ ..] = others else {
                break;
            };
            match number.cmp(next) {
                Ordering::Less => {
                    numbers.push(*number)?;
                    own = own_rest;
                }
                Ordering::Greater => {
                    numbers.push(*next)?;
                    others = others_rest;
                }
                Ordering::Equal => {
                    numbers.push(*number)?;
                    own = own_rest;
                    others = others_rest;
                }
            }
        }
        numbers.extend_from_slice(own)?;
        numbers.extend_from_slice(others)?;
        Ok(HideSet { numbers })
    }

    /// What the tokens of an object-like replacement of a macro hide, if its name hid this.
    pub(crate) fn object_hides(&self, number: u32) -> Result<HideSet, AllocError>
        ensures { IfOk result (λ hides. hides ≡ set.insert self.now number) }
    {
        let mut hides = self.copy()?;
        hides.insert(number)?;
        Ok(hides)
    }

    /// What the tokens of a function-like replacement of a macro hide, if its name hid this and the closing parenthesis
    /// that.
    pub(crate) fn call_hides(&self, close: &HideSet, number: u32) -> Result<HideSet, AllocError>
        ensures { IfOk result (λ hides. hides ≡ set.insert (set.intersection self.now close.now) number) }
    {
        let mut hides = self.intersection(close)?;
        hides.insert(number)?;
        Ok(hides)
    }
}
