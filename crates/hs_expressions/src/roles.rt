//! Whether the declaration of a routine fits its role (own).

ghost use Rattle.std.specs.Prelude.{◌≡◌, slice_get};
ghost use Rattle.hs_expressions.specs.Roles.{shapes_of, answer_of, is_shaped, is_answer, next_of, are_shaped, points_to_complete, is_filled, fills, is_plain, fits_parameters, fits_role};

use hs_operand_types::{is_void, number_kind, pointed};
use hs_table::{Role, Routine};
use hs_types::{ListId, Parameters, Row, TypeId, Types};

/// What a parameter of a role is: a handle or another pointer, or a number.
#[derive(Clone, Copy)]
pub(crate) enum Shape {
    Pointer,
    Number,
}

/// What a role gives.
#[derive(Clone, Copy)]
pub(crate) enum Answer {
    Pointer,
    Number,
    /// Nothing: the declaration may say `void` or a number, which is 0.
    Nothing,
    /// Nothing, a number or a pointer.
    Scalar,
}

/// The parameters of a role. A plain routine may have any.
fn shapes_of(role: Role) -> &'static [Shape]
    ensures { result.now ≡ shapes_of role }
{
    match role {
        Role::NewHandle | Role::NewPtr | Role::Putchar => &[Shape::Number],
        Role::DisposeHandle
        | Role::GetSize
        | Role::Lock
        | Role::Unlock
        | Role::Purge
        | Role::NoPurge
        | Role::GetState
        | Role::Empty
        | Role::DisposePtr => &[Shape::Pointer],
        Role::SetSize | Role::SetState | Role::Realloc => &[Shape::Pointer, Shape::Number],
        Role::BlockMove => &[Shape::Pointer, Shape::Pointer, Shape::Number],
        Role::Getchar | Role::Plain => &[],
    }
}

/// What a role gives.
fn answer_of(role: Role) -> Answer
    ensures { result ≡ answer_of role }
{
    match role {
        Role::NewHandle | Role::NewPtr => Answer::Pointer,
        Role::GetSize | Role::GetState | Role::Getchar | Role::Putchar => Answer::Number,
        Role::DisposeHandle
        | Role::SetSize
        | Role::Lock
        | Role::Unlock
        | Role::Purge
        | Role::NoPurge
        | Role::SetState
        | Role::Empty
        | Role::Realloc
        | Role::DisposePtr
        | Role::BlockMove => Answer::Nothing,
        Role::Plain => Answer::Scalar,
    }
}

/// Whether a type is of that shape.
fn is_shaped(types: &Types, shape: Shape, id: TypeId) -> bool
    ensures { result ≡ is_shaped types.now shape id }
{
    match shape {
        Shape::Pointer => pointed(types, id).is_some(),
        Shape::Number => number_kind(types, id).is_some(),
    }
}

/// Whether a routine whose role gives this may be declared with that result.
fn is_answer(types: &Types, answer: Answer, id: TypeId) -> bool
    ensures { result ≡ is_answer types.now answer id }
{
    match answer {
        Answer::Pointer => pointed(types, id).is_some(),
        Answer::Number => number_kind(types, id).is_some(),
        Answer::Nothing => is_void(types, id) || number_kind(types, id).is_some(),
        Answer::Scalar => {
            is_void(types, id) || number_kind(types, id).is_some() || pointed(types, id).is_some()
        }
    }
}

/// A parameter, and the list of those after it.
#[derive(Clone, Copy)]
struct Next {
    first: TypeId,
    others: ListId,
}

/// The next parameter of a list, if there is one.
fn next_of(types: &Types, list: ListId) -> Option<Next>
    ensures { result ≡ next_of (slice_get types.now.lists list.number) }
{
    match types.parameters(list)? {
        Parameters::More { first, others } => Some(Next { first, others }),
        Parameters::Empty => None,
    }
}

/// Whether there are as many parameters as shapes, each of its shape.
fn are_shaped(types: &Types, shapes: &[Shape], parameters: ListId) -> bool
    ensures { result ≡ are_shaped types.now shapes.now parameters }
{
    let mut list = parameters;
    'shapes: for shape in shapes {
        let Some(next) = next_of(types, list) else {
            return false;
        };
        if !is_shaped(types, *shape, next.first) {
            return false;
        }
        list = next.others;
    }
    matches!(types.parameters(list), Some(Parameters::Empty))
}

/// Whether a type is a pointer to a complete type.
fn points_to_complete(types: &Types, id: TypeId) -> bool
    ensures { result ≡ points_to_complete types.now id }
{
    match pointed(types, id) {
        Some(of) => types.layout(of).is_some(),
        None => false,
    }
}

/// Whether the parameter of that place, from 0, is a pointer to a complete type.
fn is_filled(types: &Types, place: u32, parameters: ListId) -> bool
    ensures { result ≡ is_filled types.now place parameters }
{
    let mut list = parameters;
    let mut left = place;
    'parameters: loop {
        let Some(next) = next_of(types, list) else {
            return false;
        };
        if left == 0 {
            return points_to_complete(types, next.first);
        }
        left -= 1;
        list = next.others;
    }
}

/// Whether the parameters are as the role asks.
fn fits_parameters(types: &Types, routine: &Routine, parameters: ListId) -> bool
    ensures { result ≡ fits_parameters types.now routine.now parameters }
{
    if routine.role != Role::Plain {
        are_shaped(types, shapes_of(routine.role), parameters)
    } else if routine.fills == 0 {
        true
    } else {
        is_filled(types, routine.fills - 1, parameters)
    }
}

/// Whether the routine of that number may be declared with that type.
pub(crate) fn fits_role(types: &Types, table: &[Routine], number: u32, id: TypeId) -> bool
    ensures { result ≡ fits_role types.now table.now number id }
{
    let Some(routine) = table.get(number as usize) else {
        return false;
    };
    let Some(Row::Function { result, parameters }) = types.row(id) else {
        return false;
    };
    is_answer(types, answer_of(routine.role), result) && fits_parameters(types, routine, parameters)
}
