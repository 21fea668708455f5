//! The arguments of calls (X3.159-1989 3.3.2.2).

ghost use Rattle.std.specs.Prelude.{◌≡◌, IfOk, map, [], Some};
ghost use Rattle.hs_operand_types.specs.Answers.{Gives};
ghost use Rattle.hs_operands.specs.Assignments.{matched, next_parameter, no_parameter, signature_of_row, returned, called};
ghost use Rattle.hs_operands.specs.Calls.{view_signature, view_called, call_of, call_routine_of};
ghost use Rattle.hs_tree.specs.Views.{view_right};
ghost use Rattle.hs_types.specs.TypeTables.{row_of};

use crate::assignments::assigned;
use hs_base::NoMemory;
use hs_operand_types::{OperandEnd, is_readable, is_void};
use hs_tokens::Place;
use hs_tree::{Head, Rvalue};
use hs_types::{ListId, Parameters, Row, TypeId, Types};
use std::alloc::Global;

/// What a function gives, and its parameters.
#[derive(Clone, Copy)]
pub(crate) struct Signature {
    result: TypeId,
    parameters: ListId,
}

/// What a call gives, and its arguments, each converted to the type of its parameter.
#[derive(Drop)]
pub struct CheckedCall {
    pub result: TypeId,
    pub arguments: Vec<Rvalue>,
}

/// What a function of that type gives, and its parameters. Refused at `at` if the type is no function.
fn signature_of(types: &Types, at: Place, id: TypeId) -> Result<Signature, OperandEnd>
    ensures { Gives view_signature (signature_of_row at (row_of types.now id)) result }
{
    match types.row(id) {
        Some(Row::Function { result, parameters }) => Ok(Signature { result, parameters }),
        Some(
            Row::Void
            | Row::Integer(_)
            | Row::Pointer(_)
            | Row::Enumeration(_)
            | Row::Struct(_)
            | Row::Array { .. }
            | Row::OpenArray(_),
        )
        | None => Err(OperandEnd::Untyped(at)),
    }
}

/// The result and the arguments of a call of a function of that type (3.3.2.2): as many arguments as parameters, each converted as by
/// assignment. Refused at `at`.
pub fn called(
    alloc: Global,
    types: &Types,
    at: Place,
    id: TypeId,
    arguments: Vec<Rvalue>,
) -> Result<CheckedCall, OperandEnd>
    ensures { Gives view_called (called types.now at id (map view_right arguments.items)) result }
{
    let signature = signature_of(types, at, id)?;
    let arguments = matched(alloc, types, at, signature.parameters, arguments)?;
    let result = signature.result;
    if !is_void(types, result) && !is_readable(types, result) {
        return Err(OperandEnd::Untyped(at));
    }
    Ok(CheckedCall { result, arguments })
}

/// The arguments, each converted to the type of its parameter.
fn matched(
    alloc: Global,
    types: &Types,
    at: Place,
    parameters: ListId,
    arguments: Vec<Rvalue>,
) -> Result<Vec<Rvalue>, OperandEnd>
    ensures { Gives (λ its. map view_right its.items) (matched types.now at [] parameters (map view_right arguments.items)) result }
{
    let mut list = parameters;
    let Ok(mut done) = Vec::with_capacity(alloc, arguments.len()) else {
        return Err(OperandEnd::NoMemory);
    };
    'arguments: for argument in arguments {
        let Some(Parameters::More { first, others }) = types.parameters(list) else {
            return Err(OperandEnd::Untyped(at));
        };
        let argument = Box::new(alloc, argument)?;
        let converted = assigned(alloc, types, at, first, argument)?;
        done.push(Box::into_inner(converted))?;
        list = others;
    }
    match types.parameters(list) {
        Some(Parameters::Empty) => Ok(done),
        Some(Parameters::More { .. }) | None => Err(OperandEnd::Untyped(at)),
    }
}

/// A call of a defined function, by its place among the functions of the program.
#[tactic(auto, using(hs_tree::specs::RowLaws::rights_seen))]
pub fn call(
    alloc: Global,
    at: Place,
    function: u32,
    checked: CheckedCall,
) -> Result<Box<Rvalue>, NoMemory>
    ensures { IfOk result (λ it. view_right it.value ≡ call_of at function (view_called checked)) }
{
    let head = Head {
        at,
        type_id: checked.result,
    };
    let made = Rvalue::Call {
        head,
        function,
        routine: None,
        arguments: checked.arguments,
    };
    Ok(Box::new(alloc, made)?)
}

/// A call of a routine, by its place in the table.
#[tactic(auto, using(hs_tree::specs::RowLaws::rights_seen))]
pub fn call_routine(
    alloc: Global,
    at: Place,
    routine: u32,
    checked: CheckedCall,
) -> Result<Box<Rvalue>, NoMemory>
    ensures { IfOk result (λ it. view_right it.value ≡ call_routine_of at routine (view_called checked)) }
{
    let head = Head {
        at,
        type_id: checked.result,
    };
    let made = Rvalue::CallRoutine {
        head,
        routine,
        arguments: checked.arguments,
    };
    Ok(Box::new(alloc, made)?)
}
