//! How many facts there are.

ghost use Rattle.std.specs.Prelude.{◌≡◌, ◌<◌, ◌+◌, ◌*◌, ◌^◌, suc, IfOk, IfSome};
ghost use Rattle.hs_fact_rows.specs.Cells.{total, with_field};

use hs_base::NoMemory;
use hs_fact_rows::Plan;

/// The plan of so many names, slots and places, if its numbers are numbers of the machine.
pub(crate) fn plan_of(names: usize, slots: usize, places: usize) -> Result<Plan, NoMemory>
    ensures names { IfOk result (λ its. its.names ≡ names) }
    ensures slots { IfOk result (λ its. its.slots ≡ slots) }
    ensures places { IfOk result (λ its. its.places ≡ places) }
    ensures fields_fit { IfOk result (λ its. with_field its its.places < 2 ^ 64) }
    ensures numbers_fit { IfOk result (λ its. total its < 2 ^ 64) }
{
    if numbers(names, slots, places).is_none() {
        return Err(NoMemory);
    }
    Ok(Plan {
        names,
        slots,
        places,
    })
}

/// How many numbers such facts have.
fn numbers(names: usize, slots: usize, places: usize) -> Option<usize>
    ensures fields { IfSome result (λ its. suc (slots + 2 * places) < 2 ^ 64) }
    ensures all { IfSome result (λ its. suc (slots + 2 * places) * names < 2 ^ 64) }
{
    let fields = places.checked_mul(2)?.checked_add(slots)?.checked_add(1)?;
    fields.checked_mul(names)
}
