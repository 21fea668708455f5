//! Sets of names as the bits of words.

ghost use Rattle.std.specs.Prelude.{◌≡◌, ◌≢◌, ◌<◌, ◌≤◌, ◌^◌, ℕ, ◌==◌, ◌&&◌, ◌||◌, Bool, not, true, false, nat_lt, IsTrue, IsFalse};
ghost use Rattle.hs_lock_rows.specs.Given.{any, other};
ghost use Rattle.hs_rows.specs.Sets.{bit_in};

use hs_fact_rows::one;

/// Returns whether the word has a bit.
///
/// Example: true for 6 and the bit 1.
#[tactic(auto, using(crate::proofs::Bits::has_read))]
pub fn has_bit(word: u64, bit: usize) -> bool
    requires fits { bit < 64 }
    ensures { result ≡ bit_in word bit }
{
    (word >> bit) & 1 == 1
}

/// The bits of both words.
#[tactic(auto, using(crate::proofs::Bits::in_both))]
pub(crate) fn both(a: u64, b: u64) -> u64
    ensures { (i : ℕ) → bit_in result i ≡ (bit_in a i && bit_in b i) }
{
    a & b
}

/// The bits of each of the words.
#[tactic(auto, using(crate::proofs::Bits::in_either))]
pub(crate) fn either(a: u64, b: u64) -> u64
    ensures { (i : ℕ) → bit_in result i ≡ (bit_in a i || bit_in b i) }
{
    a | b
}

/// The word, if it is so.
#[tactic(auto, using(crate::proofs::Bits::none_in))]
pub(crate) fn if_so(is: bool, word: u64) -> u64
    ensures { (i : ℕ) → bit_in result i ≡ (is && bit_in word i) }
{
    if is { word } else { 0 }
}

/// All names, if it is so.
#[tactic(auto, using(crate::proofs::Bits::none_in, crate::proofs::Bits::all_in))]
pub(crate) fn all_if(is: bool) -> u64
    ensures { (i : ℕ) → i < 64 → bit_in result i ≡ is }
{
    if is { u64::MAX } else { 0 }
}

/// The word without that bit.
#[tactic(auto, using(crate::proofs::Bits::not_one))]
pub(crate) fn all_but(bit: usize) -> u64
    ensures { (i : ℕ) → i < 64 → bit_in result i ≡ other bit i }
{
    !one(bit)
}

/// Whether the word has a bit.
#[tactic(auto, using(crate::proofs::Bits::some_bit, crate::proofs::Bits::none_in))]
fn is_some(word: u64) -> bool
    ensures some { IsTrue result → (i : ℕ) × (bit_in word i ≡ true) }
    ensures none { IsFalse result → (i : ℕ) → bit_in word i ≡ false }
{
    word != 0
}

/// Whether the words share a bit, if one of them has those of names alone.
pub(crate) fn meet(a: u64, b: u64, names: usize) -> bool
    requires few { (i : ℕ) → names ≤ i → (bit_in a i && bit_in b i) ≡ false }
    ensures { (f g : ℕ → Bool) → ((i : ℕ) → i < names → bit_in a i ≡ f i) → ((i : ℕ) → i < names → bit_in b i ≡ g i)
        → result ≡ any names (λ i. f i && g i) }
{
    is_some(both(a, b))
}
