//! Rows of sets of numbers.

ghost use Rattle.std.specs.Prelude.{◌≡◌, ◌≢◌, ◌<◌, ◌≤◌, ℕ, ◌^◌, ◌==◌, ◌&&◌, not, true, false, IfOk, length, IsTrue, IsFalse};
ghost use Rattle.hs_rows.specs.Sets.{SameSize, KeepsOthers, KeepsRows, has, width};

use hs_base::NoMemory;
use std::alloc::Global;
use std::marker::Model;

/// Rows of sets of numbers below a width.
#[derive(Drop)]
pub struct Rows {
    /// Row by row, the words of each row one after the other.
    words: Vec<u64>,
    /// The words of a row.
    per: usize,
    rows: usize,
}

impl Model for Rows {
    ghost use Rattle.std.specs.Prelude.{◌≡◌, ◌≤◌, ◌+◌, ◌*◌, ◌^◌, length};
    ghost use Rattle.hs_rows.specs.Sets.{Sets};

    ghost Value = { Sets };

    ghost view = { λ it. record { count = it.rows; per = it.per; words = it.words.items } };

    ghost invariant = { λ it. (length it.words.items ≡ it.rows * it.per) × (64 * it.per ≤ 2 ^ 64 + 63) };
}

impl Rows {
    /// So many empty rows, for numbers below the width at least.
    ///
    /// # Errors
    ///
    /// `NoMemory` if memory runs out.
    pub fn new(alloc: Global, rows: usize, numbers: usize) -> Result<Rows, NoMemory>
        ensures count { IfOk result (λ it. it.count ≡ rows) }
        ensures width { IfOk result (λ it. numbers ≤ width it) }
        ensures empty { IfOk result (λ it. (row bit : ℕ) → has it row bit ≡ false) }
    {
        let per = numbers / 64 + 1;
        let Some(count) = rows.checked_mul(per) else {
            return Err(NoMemory);
        };
        let words = Vec::from_elem(alloc, 0, count)?;
        Ok(Rows { words, per, rows })
    }

    /// Whether the row has the number.
    #[inline(always)]
    pub fn has(&self, row: usize, bit: usize) -> bool
        requires row_in_range { row < self.now.count }
        requires bit_in_range { bit < width self.now }
        ensures { result ≡ has self.now row bit }
    {
        (self.words[row * self.per + bit / 64] >> (bit % 64)) & 1 == 1
    }

    /// Adds the number to the row, and answers whether it was not there.
    #[inline(always)]
    pub fn put(&mut self, row: usize, bit: usize) -> bool
        requires row_in_range { row < self.old.count }
        requires bit_in_range { bit < width self.old }
        ensures added { result ≡ not (has self.old row bit) }
        ensures there { has self.new row bit ≡ true }
        ensures others { KeepsOthers row bit self.old self.new }
        ensures size { SameSize self.old self.new }
    {
        let at = row * self.per + bit / 64;
        let word = self.words[at];
        self.words[at] = word | (1 << (bit % 64));
        (word >> (bit % 64)) & 1 == 0
    }

    /// Removes the number from the row.
    #[inline(always)]
    pub fn drop_bit(&mut self, row: usize, bit: usize)
        requires row_in_range { row < self.old.count }
        requires bit_in_range { bit < width self.old }
        ensures gone { has self.new row bit ≡ false }
        ensures others { KeepsOthers row bit self.old self.new }
        ensures size { SameSize self.old self.new }
    {
        let at = row * self.per + bit / 64;
        self.words[at] &= !(1 << (bit % 64));
    }

    /// Leaves in one row the numbers that another one has too, and answers whether it has fewer now.
    pub fn meet(&mut self, to: usize, from: usize) -> bool
        requires to_in_range { to < self.old.count }
        requires from_in_range { from < self.old.count }
        ensures both { (bit : ℕ) → bit < width self.old → has self.new to bit ≡ (has self.old to bit && has self.old from bit) }
        ensures others { KeepsRows to self.old self.new }
        ensures size { SameSize self.old self.new }
        ensures same { IsFalse result → (bit : ℕ) → bit < width self.old → has self.new to bit ≡ has self.old to bit }
        ensures fewer { IsTrue result → ¬ ((bit : ℕ) → bit < width self.old → has self.new to bit ≡ has self.old to bit) }
    {
        let mut changed = false;
        'words: for place in 0..self.per {
            let old = self.words[to * self.per + place];
            let new = old & self.words[from * self.per + place];
            self.words[to * self.per + place] = new;
            changed |= differ(new, old);
        }
        changed
    }

    /// Makes one row equal to another one.
    pub fn copy_row(&mut self, to: usize, from: usize)
        requires to_in_range { to < self.old.count }
        requires from_in_range { from < self.old.count }
        ensures copied { (bit : ℕ) → bit < width self.old → has self.new to bit ≡ has self.old from bit }
        ensures others { KeepsRows to self.old self.new }
        ensures size { SameSize self.old self.new }
    {
        'words: for place in 0..self.per {
            self.words[to * self.per + place] = self.words[from * self.per + place];
        }
    }
}

/// Whether the words differ.
fn differ(new: u64, old: u64) -> bool
    ensures exact { result ≡ not (new == old) }
    ensures fit { (old < 2 ^ 64) × (new < 2 ^ 64) }
{
    new != old
}
