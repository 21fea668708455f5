//! Which variables are handle names.

ghost use Rattle.std.specs.Prelude.{◌≡◌, ◌<◌, ℕ, false, IfOk, OnOk, length, slice_index_or};
ghost use Rattle.hs_facts.specs.Names.{is_handle, mentions, is_pointer_in, points_to_pointer};
ghost use Rattle.hs_restores.specs.Marks.{handle_globals, handle_locals, touched_by, with_mark};
ghost use Rattle.hs_tree.specs.Kinds.{is_pointer, pointed};

use hs_base::NoMemory;
use hs_code::{Op, Placed};
use hs_tree::{Global as Object, Variable, VariableDecl};
use hs_types::{Row, TypeId, Types};
use std::alloc::Global;

/// Whether the type is one of pointers.
fn is_pointer(types: &Types, id: TypeId) -> bool
    ensures { result ≡ is_pointer types.now id }
{
    matches!(types.row(id), Some(Row::Pointer(_)))
}

/// Returns whether the type is one of pointers to pointers.
///
/// Example: true for `char **`.
pub fn points_to_pointer(types: &Types, id: TypeId) -> bool
    ensures { result ≡ points_to_pointer types.now id }
{
    match types.row(id) {
        Some(Row::Pointer(of)) => is_pointer(types, of),
        _ => false,
    }
}

/// Whether the variable may have a handle that is known by its name.
fn is_handle(types: &Types, variable: &VariableDecl) -> bool
    ensures { result ≡ is_handle types.now (Some variable.now) }
{
    variable.is_slot(types) && points_to_pointer(types, variable.type_id)
}

/// Marks the handle names among the variables of a function.
pub(crate) fn handle_locals(
    alloc: Global,
    types: &Types,
    variables: &[VariableDecl],
) -> Result<Vec<bool>, NoMemory>
    ensures { IfOk result (λ its. its.items ≡ handle_locals types.now variables.now) }
{
    let mut marks = Vec::new(alloc);
    'variables: for it in variables {
        marks.push(is_handle(types, it))?;
    }
    Ok(marks)
}

/// Marks the handle names among the globals: those that the operations get or set.
pub(crate) fn handle_globals(
    alloc: Global,
    types: &Types,
    globals: &[Object],
    ops: &[Placed],
) -> Result<Vec<bool>, NoMemory>
    ensures { IfOk result (λ its. its.items ≡ handle_globals types.now ops.now 0 globals.now) }
{
    let mentioned = mentioned(alloc, globals.len(), ops)?;
    let mut marks = Vec::new(alloc);
    'globals: for (place, it) in globals.iter().enumerate() {
        marks.push(is_handle(types, &it.variable) && mentioned[place])?;
    }
    Ok(marks)
}

/// Marks the globals below that number which the operations get or set.
fn mentioned(alloc: Global, count: usize, ops: &[Placed]) -> Result<Vec<bool>, NoMemory>
    ensures count { IfOk result (λ its. length its.items ≡ count) }
    ensures marks { IfOk result (λ its. (g : ℕ) → g < count → slice_index_or its.items g false ≡ mentions ops.now g) }
{
    let mut marks = Vec::from_elem(alloc, false, count)?;
    'ops: for its in ops {
        put_mark(marks.as_mut_slice(), touched_by(its.op));
    }
    Ok(marks)
}

/// Marks that place, if there is one and it is among those that are marked.
pub(crate) fn put_mark(marks: &mut [bool], place: Option<usize>)
    ensures { marks.new ≡ with_mark marks.old place }
{
    if let Some(place) = place {
        if place < marks.len() {
            marks[place] = true;
        }
    }
}

/// The global that an operation gets or sets.
fn touched_by(op: Op) -> Option<usize>
    ensures { result ≡ touched_by op }
{
    match op {
        Op::Get(Variable::Global(place)) | Op::Set(Variable::Global(place)) => {
            Some(place as usize)
        }
        _ => None,
    }
}
