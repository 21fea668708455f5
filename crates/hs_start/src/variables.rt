//! What the variables of a program are.

ghost use Rattle.std.specs.Prelude.{◌≡◌, if◌then◌else◌, length, IfOk};
ghost use Rattle.hs_heap.specs.declared.cell.Pointer.TheVariants.{Nil};
ghost use Rattle.hs_meaning.specs.Objects.{bindings, objects_for, starting_bindings, starting_value, variables_of};
ghost use Rattle.hs_meaning.specs.Values.{number, pointer};
ghost use Rattle.hs_state.specs.Settings.{setting_here};
ghost use Rattle.hs_tree.specs.Kinds.{is_pointer};

use crate::bases::Bases;
use hs_base::NoMemory;
use hs_heap::Pointer;
use hs_state::Binding;
use hs_tree::{Global as Variable, Part};
use hs_types::{Row, TypeId, Types};
use hs_values::Value;
use std::alloc::Global;

/// How many of these variables are objects.
pub(crate) fn object_count(types: &Types, its: &[Variable]) -> Result<u32, NoMemory>
    ensures { IfOk result (λ count. count ≡ length (objects_for types.now (variables_of its.now))) }
{
    let mut count: u32 = 0;
    'variables: for it in its {
        if !it.variable.is_slot(types) {
            count = count.checked_add(1).ok_or(NoMemory)?;
        }
    }
    Ok(count)
}

/// What these variables are, without their values. Objects are numbered from 0.
pub(crate) fn places(
    alloc: Global,
    types: &Types,
    its: &[Variable],
) -> Result<Vec<Binding>, NoMemory>
    ensures { IfOk result (λ made. made.items ≡ bindings types.now 0 (variables_of its.now)) }
{
    let mut made = Vec::new(alloc);
    let mut next: u32 = 0;
    'variables: for it in its {
        if it.variable.is_slot(types) {
            made.push(Binding::empty())?;
        } else {
            made.push(Binding::object(next))?;
            next = next.checked_add(1).ok_or(NoMemory)?;
        }
    }
    Ok(made)
}

/// What a scalar of that type starts with if it has no constant: NIL of a pointer, or else 0.
fn zero(types: &Types, id: TypeId) -> Value
    ensures { result ≡ (if is_pointer types.now id then pointer Nil else number 0) }
{
    match types.row(id) {
        Some(Row::Pointer(_)) => Value::pointer(Pointer::Nil),
        Some(
            Row::Void
            | Row::Integer(_)
            | Row::Enumeration(_)
            | Row::Struct(_)
            | Row::Array { .. }
            | Row::OpenArray(_)
            | Row::Function { .. },
        )
        | None => Value::number(0),
    }
}

/// What a slot starts with: its constant, or else 0 or NIL (3.5.7).
fn first_value(bases: &Bases, id: TypeId, parts: &[Part]) -> Result<Value, NoMemory>
    ensures { IfOk result (λ value. value ≡ starting_value (setting_here bases.now.setting) id parts.now) }
{
    match parts.first() {
        Some(part) => bases.value(part.value),
        None => Ok(zero(bases.setting.types, id)),
    }
}

/// What these variables are before `main` is called. Objects are numbered from 0.
pub(crate) fn first_bindings(
    alloc: Global,
    bases: &Bases,
    its: &[Variable],
) -> Result<Vec<Binding>, NoMemory>
    ensures { IfOk result (λ made. made.items ≡ starting_bindings (setting_here bases.now.setting) 0 its.now) }
{
    let mut made = Vec::new(alloc);
    let mut next: u32 = 0;
    'variables: for it in its {
        if it.variable.is_slot(bases.setting.types) {
            let value = first_value(bases, it.variable.type_id, it.parts.items())?;
            made.push(Binding::slot(value))?;
        } else {
            made.push(Binding::object(next))?;
            next = next.checked_add(1).ok_or(NoMemory)?;
        }
    }
    Ok(made)
}
