//! Fields of a row: a bit for each name.

ghost use Rattle.std.specs.Prelude.{◌≡◌, ◌≢◌, ◌<◌, ◌≤◌, ℕ, ◌+◌, ◌^◌, false};
ghost use Rattle.hs_rows.specs.Sets.{has, width, bit_in};
ghost use Rattle.hs_fact_rows.specs.Fields.{Writes};

use hs_rows::Rows;

/// Returns the names of a field, as the bits of a word.
///
/// Example: 6 for the field of three names that begins at the number 30, if the row has 31 and 32, and not 30.
pub fn field(rows: &Rows, row: usize, first: usize, names: usize) -> u64
    requires row_in_range { row < rows.now.count }
    requires bits_in_range { first + names ≤ width rows.now }
    requires bits_fit { first + names < 2 ^ 64 }
    requires names_fit { names ≤ 64 }
    ensures read { (i : ℕ) → i < names → bit_in result i ≡ has rows.now row (first + i) }
    ensures few { (i : ℕ) → names ≤ i → bit_in result i ≡ false }
{
    let mut word = 0u64;
    'bits: for i in 0..names {
        word = with_bit(word, i, rows.has(row, first + i));
    }
    word
}

/// The word with a bit more, if it is so.
#[tactic(auto, using(crate::proofs::Writing::added_here, crate::proofs::Writing::added_other))]
fn with_bit(word: u64, i: usize, is: bool) -> u64
    requires fits { i < 64 }
    ensures here { bit_in word i ≡ false → bit_in result i ≡ is }
    ensures others { (j : ℕ) → j ≢ i → bit_in result j ≡ bit_in word j }
{
    if is { word | (1 << i) } else { word }
}

/// Puts the names of a word into a field.
///
/// Example: the word 6 leaves a field of three names without its first one, and with the other two.
pub fn write(rows: &mut Rows, row: usize, first: usize, names: usize, word: u64)
    requires row_in_range { row < rows.old.count }
    requires bits_in_range { first + names ≤ width rows.old }
    requires bits_fit { first + names < 2 ^ 64 }
    requires names_fit { names ≤ 64 }
    ensures { Writes row first names (bit_in word) rows.old rows.new }
{
    'bits: for i in 0..names {
        if (word >> i) & 1 == 1 {
            rows.put(row, first + i);
        } else {
            rows.drop_bit(row, first + i);
        }
    }
}

/// Removes so many numbers from a row, from one on.
///
/// Example: `clear(rows, 0, 30, 2)` removes 30 and 31 from row 0.
pub fn clear(rows: &mut Rows, row: usize, first: usize, count: usize)
    requires row_in_range { row < rows.old.count }
    requires bits_in_range { first + count ≤ width rows.old }
    requires bits_fit { first + count < 2 ^ 64 }
    ensures { Writes row first count (λ i. false) rows.old rows.new }
{
    'bits: for i in 0..count {
        rows.drop_bit(row, first + i);
    }
}
