//! What a program takes the address of.

ghost use Rattle.std.specs.Prelude.{◌≡◌, [], IfOk};
ghost use Rattle.hs_ends.specs.Ends.{with_taken_global, taken_globals, with_taken_field, taken_fields};

use hs_base::NoMemory;
use hs_tree::{Representatives, TakenFields, Variable};
use hs_typer::Taken;
use indexmap::IndexSet;
use std::alloc::Global;

/// The places of objects, with one more, if it is the address of an object.
fn with_taken_global(done: IndexSet<u32>, it: Taken) -> Result<IndexSet<u32>, NoMemory>
    ensures { IfOk result (λ all. all.keys ≡ with_taken_global done.keys it) }
{
    let mut all = done;
    match it {
        Taken::Variable(Variable::Global(place)) => {
            all.insert(place)?;
        }
        Taken::Variable(Variable::Local(_)) | Taken::Field(_) => {}
    }
    Ok(all)
}

/// The places of the objects whose addresses the program takes, once each.
///
/// Example: the place of `x` once, if the program says `&x` twice and `x` is an object outside functions.
pub fn taken_globals(alloc: Global, its: &[Taken]) -> Result<IndexSet<u32>, NoMemory>
    ensures { IfOk result (λ all. all.keys ≡ taken_globals [] its.now) }
{
    let mut all = IndexSet::new(alloc);
    let mut rest = its;
    'rest: while let Some((it, others)) = rest.split_first() {
        all = with_taken_global(all, *it)?;
        rest = others;
    }
    Ok(all)
}

/// The fields, with what stands for one more, if it is the address of a field.
fn with_taken_field(
    same: &Representatives,
    done: TakenFields,
    it: Taken,
) -> Result<TakenFields, NoMemory>
    ensures { IfOk result (λ all. all ≡ with_taken_field same.now done it) }
{
    let mut all = done;
    match it {
        Taken::Field(field) => all.add(same.field_for(field))?,
        Taken::Variable(_) => {}
    }
    Ok(all)
}

/// What stands for the fields whose addresses the program takes, once each.
///
/// Example: the field `next` for `&p->next`.
pub fn taken_fields(
    alloc: Global,
    same: &Representatives,
    its: &[Taken],
) -> Result<TakenFields, NoMemory>
    ensures { IfOk result (λ all. all ≡ taken_fields same.now [] its.now) }
{
    let mut all = TakenFields::new(alloc);
    let mut rest = its;
    'rest: while let Some((it, others)) = rest.split_first() {
        all = with_taken_field(same, all, *it)?;
        rest = others;
    }
    Ok(all)
}
