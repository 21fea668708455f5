//! What an operation makes of a row.

ghost use Rattle.std.specs.Prelude.{◌≡◌, ◌≢◌, ◌<◌, ◌≤◌, ℕ, Bool};
ghost use Rattle.hs_rows.specs.Sets.{Sets, SameSize, KeepsRows, has, width};

use hs_rows::Rows;

/// Makes the row after an operation from the row before it.
pub trait Maker {
    ghost ops: { Self → ℕ };

    ghost total: { Self → ℕ };

    ghost makes: { Self → ℕ → (ℕ → Bool) → (ℕ → Bool) → Type 0 };

    /// Makes the row `to` from that of the operation. There are `ops` operations, and of a row the bits below `total` count.
    fn make(&self, rows: &mut Rows, at: usize, to: usize)
        requires there { at < ops self.now }
        requires from_in_range { at < rows.old.count }
        requires to_in_range { to < rows.old.count }
        requires apart { at ≢ to }
        requires room { total self.now ≤ width rows.old }
        ensures made { (bits : ℕ → Bool) → ((b : ℕ) → b < total self.now → bits b ≡ has rows.old at b) → makes self.now at bits (has rows.new to) }
        ensures others { KeepsRows to rows.old rows.new }
        ensures size { SameSize rows.old rows.new };
}
