//! Where the fields of a row are.

ghost use Rattle.std.specs.Prelude.{◌≡◌, ◌<◌, ◌≤◌, ◌+◌, ◌*◌, ◌^◌, ℕ, false, IfSome, IsTrue};
ghost use Rattle.hs_lock_rows.specs.Given.{Locks};
ghost use Rattle.hs_lock_rows.specs.Knowing.{HasRoom};
ghost use Rattle.hs_lock_rows.specs.Layout.{IsField, field_number, fields, fixed, number, total};
ghost use Rattle.hs_lock_rows.specs.Making.{Shows};
ghost use Rattle.hs_rows.specs.Sets.{bit_in, has};

use crate::Field;
use hs_fact_rows::{Plan, field};
use hs_rows::Rows;

/// How many fields are in front of those of places.
fn fixed(plan: Plan) -> usize
    requires fields_fit { fields plan < 2 ^ 64 }
    ensures { result ≡ fixed plan }
{
    plan.names + plan.slots + 3
}

/// How many fields there are.
pub(crate) fn fields(plan: Plan) -> usize
    requires fields_fit { fields plan < 2 ^ 64 }
    ensures { result ≡ fields plan }
{
    fixed(plan) + 2 * plan.places
}

/// How many numbers the facts of a row have.
pub(crate) fn total(plan: Plan) -> usize
    requires fields_fit { fields plan < 2 ^ 64 }
    requires numbers_fit { total plan < 2 ^ 64 }
    ensures { result ≡ total plan }
{
    fields(plan) * plan.names
}

/// The number of a field.
pub(crate) fn field_number(plan: Plan, field: Field) -> usize
    requires there { IsField plan field }
    requires fields_fit { fields plan < 2 ^ 64 }
    ensures { result ≡ field_number plan field }
{
    match field {
        Field::Locked => 0,
        Field::Live => 1,
        Field::Apart(name) => name + 2,
        Field::KeptIn(slot) => plan.names + slot + 2,
        Field::KeptAt(place) => fixed(plan) + 2 * place,
        Field::NewAt(place) => fixed(plan) + 2 * place + 1,
    }
}

/// The field of a number.
pub(crate) fn field_at(plan: Plan, number: usize) -> Field
    requires within { number < fields plan }
    requires fields_fit { fields plan < 2 ^ 64 }
    ensures is { field_number plan result ≡ number }
    ensures there { IsField plan result }
{
    if number == 0 {
        return Field::Locked;
    }
    if number == 1 {
        return Field::Live;
    }
    let rest = number - 2;
    if rest < plan.names {
        return Field::Apart(rest);
    }
    if number < fixed(plan) {
        return Field::KeptIn(rest - plan.names);
    }
    place_field(number - fixed(plan))
}

/// A field of a place, by its number among those.
fn place_field(number: usize) -> Field
    ensures { (plan : Plan) → number < 2 * plan.places → (field_number plan result ≡ fixed plan + number) × IsField plan result }
{
    if number % 2 == 0 {
        Field::KeptAt(number / 2)
    } else {
        Field::NewAt(number / 2)
    }
}

/// The first number of a field.
#[tactic(auto, using(crate::specs::Laws::Numbering::first_in))]
pub(crate) fn first(plan: Plan, field: Field) -> usize
    requires there { IsField plan field }
    requires fields_fit { fields plan < 2 ^ 64 }
    requires numbers_fit { total plan < 2 ^ 64 }
    ensures is { result ≡ field_number plan field * plan.names }
    ensures inside { result + plan.names ≤ total plan }
{
    field_number(plan, field) * plan.names
}

/// The names of a field, as the bits of a word.
pub(crate) fn read(rows: &Rows, plan: Plan, row: usize, its: Field) -> u64
    requires there { IsField plan its }
    requires room { HasRoom plan rows.now row }
    ensures names { (facts : Locks) → Shows plan (has rows.now row) facts → (i : ℕ) → i < plan.names → bit_in result i ≡ facts its i }
    ensures few { (i : ℕ) → plan.names ≤ i → bit_in result i ≡ false }
{
    field(rows, row, first(plan, its), plan.names)
}

/// Returns whether the row before an operation has a name in a field.
///
/// Example: of `Field::Locked`, whether the name is locked.
pub fn has_name(rows: &Rows, plan: Plan, row: usize, its: Field, name: usize) -> bool
    requires there { IsField plan its }
    requires name_in_range { name < plan.names }
    requires room { HasRoom plan rows.now row }
    ensures { result ≡ has rows.now row (number plan its name) }
{
    rows.has(row, first(plan, its) + name)
}

/// Returns whether the numbers of the facts of a plan are numbers of the machine.
///
/// Example: false for 64 names and 2^60 places.
pub fn fits(plan: Plan) -> bool
    ensures fields { IsTrue result → fields plan < 2 ^ 64 }
    ensures numbers { IsTrue result → total plan < 2 ^ 64 }
{
    numbers(plan).is_some()
}

/// How many numbers the facts of a plan have, if that is a number of the machine.
fn numbers(plan: Plan) -> Option<usize>
    ensures fields { IfSome result (λ its. fields plan < 2 ^ 64) }
    ensures all { IfSome result (λ its. total plan < 2 ^ 64) }
{
    let places = plan.places.checked_mul(2)?;
    let front = plan.names.checked_add(plan.slots)?.checked_add(3)?;
    front.checked_add(places)?.checked_mul(plan.names)
}
