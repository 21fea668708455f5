//! The conversions that operators ask for (X3.159-1989 3.2.1).

ghost use Rattle.std.specs.Prelude.{◌≡◌, IfOk};
ghost use Rattle.hs_operand_types.specs.Answers.{Gives};
ghost use Rattle.hs_operand_types.specs.Conversions.{as_kind, truth};
ghost use Rattle.hs_tree.specs.Views.{view_right};

use hs_base::NoMemory;
use hs_operand_types::{OperandEnd, is_pointer, number_kind};
use hs_tokens::Place;
use hs_tree::{Head, Rvalue};
use hs_types::{Integer, TypeId, Types};
use std::alloc::Global;

/// A number as one of that kind, by a conversion if its type is another (3.2.1.2).
pub(crate) fn as_kind(
    alloc: Global,
    at: Place,
    kind: Integer,
    operand: Box<Rvalue>,
) -> Result<Box<Rvalue>, NoMemory>
    ensures { IfOk result (λ it. view_right it.value ≡ as_kind at kind (view_right operand.value)) }
{
    let type_id = TypeId::integer(kind);
    if operand.head().type_id == type_id {
        return Ok(operand);
    }
    let head = Head { at, type_id };
    Ok(Box::new(
        alloc,
        Rvalue::ConvertNumber {
            head,
            kind,
            operand,
        },
    )?)
}

/// A condition as a number: a pointer is compared with the null pointer (3.3.3.3). Refused at `at` if it is no scalar.
pub fn truth(
    alloc: Global,
    types: &Types,
    at: Place,
    operand: Box<Rvalue>,
) -> Result<Box<Rvalue>, OperandEnd>
    ensures { Gives (λ it. view_right it.value) (truth types.now at (view_right operand.value)) result }
{
    let head = operand.head();
    if number_kind(types, head.type_id).is_some() {
        return Ok(operand);
    }
    if !is_pointer(types, head.type_id) {
        return Err(OperandEnd::Untyped(at));
    }
    let head = Head {
        at: head.at,
        type_id: TypeId::integer(Integer::Int),
    };
    let test = Rvalue::IsNil {
        head,
        equal: false,
        pointer: operand,
    };
    Ok(Box::new(alloc, test)?)
}
