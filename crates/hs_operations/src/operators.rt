//! Operations that take values and leave one, each over its operands.

ghost use Rattle.std.specs.Prelude.{◌≡◌, ◌∷◌, [], pos, length};
ghost use Rattle.hs_meaning.specs.Machine.{Machine as Meant};
ghost use Rattle.hs_meaning.specs.Numbers.{truth};
ghost use Rattle.hs_meaning.specs.Operations as operation;
ghost use Rattle.hs_meaning.specs.Operations.{operation_stops, operation_value};
ghost use Rattle.hs_meaning.specs.Pointers.{compare_stops, difference_of, difference_stops, pointer_answer};
ghost use Rattle.hs_meaning.specs.Values.{number};
ghost use Rattle.hs_state.specs.Machines.{machine_of};
ghost use Rattle.hs_values.specs.Answers.{Halts, or_first};

use hs_heap::Pointer;
use hs_meaning::Stop;
use hs_state::Machine;
use hs_tree::{Arithmetic, Comparison, Stride, Unary};
use hs_types::Integer;
use hs_values::{Halt, Value, moved, stride_bytes};

/// A number as one of that type (X3.159-1989 3.2.1.2).
pub(crate) fn convert(machine: &Machine, kind: Integer, values: &[Value]) -> Result<Value, Halt>
    requires one { length values.now ≡ 1 }
    ensures { Halts (or_first (operation_stops (operation.convert kind) values.now (machine_of machine.now)) (operation_value (operation.convert kind) values.now (machine_of machine.now))) result }
{
    let [value] = values else {
        return Err(Halt::Stopped(Stop::BadPointer));
    };
    Ok(value.copied(machine.alloc)?.converted(kind)?)
}

/// An operator in front of a number (3.3.3.3).
pub(crate) fn sign(operator: Unary, values: &[Value]) -> Result<Value, Stop>
    requires one { length values.now ≡ 1 }
    ensures { (m : Meant) → result ≡ or_first (operation_stops (operation.sign operator) values.now m) (operation_value (operation.sign operator) values.now m) }
{
    let [value] = values else {
        return Err(Stop::BadPointer);
    };
    Ok(Value::number(hs_values::signed(operator, value.bits()?)))
}

/// 1 for 0, and 0 for any other number.
pub(crate) fn not(values: &[Value]) -> Result<Value, Stop>
    requires one { length values.now ≡ 1 }
    ensures { (m : Meant) → result ≡ or_first (operation_stops operation.not_ values.now m) (operation_value operation.not_ values.now m) }
{
    let [value] = values else {
        return Err(Stop::BadPointer);
    };
    Ok(Value::truth(value.bits()? == 0))
}

/// An operator between two numbers of that type.
pub(crate) fn arithmetic(
    operator: Arithmetic,
    kind: Integer,
    values: &[Value],
) -> Result<Value, Stop>
    requires two { length values.now ≡ 2 }
    ensures { (m : Meant) → result ≡ or_first (operation_stops (operation.arithmetic operator kind) values.now m) (operation_value (operation.arithmetic operator kind) values.now m) }
{
    let [a, b] = values else {
        return Err(Stop::BadPointer);
    };
    let (a, b) = (a.bits()?, b.bits()?);
    Ok(Value::number(hs_values::arithmetic(operator, kind, a, b)?))
}

/// A comparison of two numbers of that type.
pub(crate) fn comparison(
    operator: Comparison,
    kind: Integer,
    values: &[Value],
) -> Result<Value, Stop>
    requires two { length values.now ≡ 2 }
    ensures { (m : Meant) → result ≡ or_first (operation_stops (operation.comparison operator kind) values.now m) (operation_value (operation.comparison operator kind) values.now m) }
{
    let [a, b] = values else {
        return Err(Stop::BadPointer);
    };
    let (a, b) = (a.bits()?, b.bits()?);
    Ok(Value::truth(hs_values::compared(operator, kind, a, b)))
}

/// 1 for the null pointer, and 0 for any other.
pub(crate) fn is_nil(values: &[Value]) -> Result<Value, Stop>
    requires one { length values.now ≡ 1 }
    ensures { (m : Meant) → result ≡ or_first (operation_stops operation.is_nil values.now m) (operation_value operation.is_nil values.now m) }
{
    let [its] = values else {
        return Err(Stop::BadPointer);
    };
    Ok(Value::truth(matches!(its.as_pointer()?, Pointer::Nil)))
}

/// A comparison of two pointers, which are operands.
fn pointers_compared(
    machine: &Machine,
    operator: Comparison,
    a: Pointer,
    b: Pointer,
) -> Result<Value, Stop>
    ensures { result ≡ or_first (compare_stops operator a b (machine_of machine.now)) (number (truth (pointer_answer operator a b))) }
{
    match machine.compare(operator, a, b) {
        Ok(answer) => Ok(Value::truth(answer)),
        Err(why) => Err(why),
    }
}

/// A comparison of two pointers.
pub(crate) fn compare(
    machine: &Machine,
    operator: Comparison,
    values: &[Value],
) -> Result<Value, Stop>
    requires two { length values.now ≡ 2 }
    ensures { result ≡ or_first (operation_stops (operation.compare operator) values.now (machine_of machine.now)) (operation_value (operation.compare operator) values.now (machine_of machine.now)) }
{
    let [a, b] = values else {
        return Err(Stop::BadPointer);
    };
    let (a, b) = (a.as_pointer()?, b.as_pointer()?);
    pointers_compared(machine, operator, a, b)
}

/// How many objects of that size are between two pointers, which are operands.
fn pointers_apart(machine: &Machine, size: u32, a: Pointer, b: Pointer) -> Result<Value, Halt>
    ensures { Halts (or_first (difference_stops a b (machine_of machine.now)) (number (difference_of size a b))) result }
{
    match machine.difference(size, a, b) {
        Ok(bits) => Ok(Value::number(bits)),
        Err(why) => Err(why),
    }
}

/// How many objects of that size are between two pointers.
pub(crate) fn difference(machine: &Machine, size: u32, values: &[Value]) -> Result<Value, Halt>
    requires two { length values.now ≡ 2 }
    ensures { Halts (or_first (operation_stops (operation.difference size) values.now (machine_of machine.now)) (operation_value (operation.difference size) values.now (machine_of machine.now))) result }
{
    let [a, b] = values else {
        return Err(Halt::Stopped(Stop::BadPointer));
    };
    let (a, b) = (a.as_pointer()?, b.as_pointer()?);
    pointers_apart(machine, size, a, b)
}

/// The pointer that is so many bytes on.
pub(crate) fn offset(bytes: u32, values: &[Value]) -> Result<Value, Stop>
    requires one { length values.now ≡ 1 }
    ensures { (m : Meant) → result ≡ or_first (operation_stops (operation.offset bytes) values.now m) (operation_value (operation.offset bytes) values.now m) }
{
    let [its] = values else {
        return Err(Stop::BadPointer);
    };
    Ok(Value::pointer(moved(i64::from(bytes), its.as_pointer()?)?))
}

/// The pointer after a step by that number.
#[inline(always)]
pub(crate) fn stepped_by(stride: Stride, its: &Value, bits: u32) -> Result<Value, Stop>
    ensures { result ≡ or_first (operation.step_stops stride its.now (number bits)) (operation.stepped stride its.now (number bits)) }
{
    let its = its.as_pointer()?;
    Ok(Value::pointer(moved(stride_bytes(stride, bits), its)?))
}

/// The pointer after a step by a number.
#[inline(always)]
fn stepped(stride: Stride, its: &Value, by: &Value) -> Result<Value, Stop>
    ensures { result ≡ or_first (operation.step_stops stride its.now by.now) (operation.stepped stride its.now by.now) }
{
    let bits = by.bits()?;
    let its = its.as_pointer()?;
    Ok(Value::pointer(moved(stride_bytes(stride, bits), its)?))
}

/// A step of a pointer by a number, which is on top if the pointer comes first.
#[inline(always)]
pub(crate) fn step(stride: Stride, pointer_first: bool, values: &[Value]) -> Result<Value, Stop>
    requires two { length values.now ≡ 2 }
    ensures { (m : Meant) → result ≡ or_first (operation_stops (operation.step stride pointer_first) values.now m) (operation_value (operation.step stride pointer_first) values.now m) }
{
    let [a, b] = values else {
        return Err(Stop::BadPointer);
    };
    if pointer_first {
        stepped(stride, a, b)
    } else {
        stepped(stride, b, a)
    }
}
