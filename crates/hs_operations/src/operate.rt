//! Operations that take values and leave one.

ghost use Rattle.std.specs.Prelude.{◌≡◌, [], length, OnErr};
ghost use Rattle.hs_code_run.specs.Steps.{access_of, operation_of};
ghost use Rattle.hs_meaning.specs.Operations as operation;
ghost use Rattle.hs_meaning.specs.Accesses.{stored};
ghost use Rattle.hs_meaning.specs.Operations.{operate as operated};
ghost use Rattle.hs_meaning.specs.Settings.{Setting as Meant};
ghost use Rattle.hs_operations.specs.Operating.{Answers, DoesAs, Gives, Takes};
ghost use Rattle.hs_state.specs.Machines.{Does, Keeps, machine_of};
ghost use Rattle.hs_state.specs.Settings.{setting_here};

use crate::operators::{
    arithmetic, compare, comparison, convert, difference, is_nil, not, offset, sign, step,
};
use hs_code::{Access, Binary, Op, Unary};
use hs_heap::Pointer;
use hs_meaning::Stop;
use hs_state::{Machine, Setting};
use hs_tree::Variable;
use hs_values::{Halt, Value};

/// What an operation gives that changes nothing.
fn answer(machine: &Machine, op: Op, values: &[Value]) -> Result<Value, Halt>
    requires takes { Takes (operation_of op) (length values.now) }
    ensures { Answers (operation_of op) values.now (machine_of machine.now) result }
{
    match op {
        Op::Get(name) => machine.get(name),
        Op::Conv(kind) => convert(machine, kind, values),
        Op::Unary(Unary::Sign(operator)) => Ok(sign(operator, values)?),
        Op::Unary(Unary::Not) => Ok(not(values)?),
        Op::Binary(Binary::Arithmetic(operator), kind) => Ok(arithmetic(operator, kind, values)?),
        Op::Binary(Binary::Comparison(operator), kind) => Ok(comparison(operator, kind, values)?),
        Op::IsNil => Ok(is_nil(values)?),
        Op::Compare(operator) => Ok(compare(machine, operator, values)?),
        Op::Difference(size) => difference(machine, size, values),
        Op::Offset(bytes) => Ok(offset(bytes, values)?),
        Op::Step {
            stride,
            pointer_first,
        } => Ok(step(stride, pointer_first, values)?),
        Op::Num(_)
        | Op::Nil
        | Op::Address(_)
        | Op::Set(_)
        | Op::Load(_)
        | Op::Store(_)
        | Op::Drop
        | Op::Dup
        | Op::Tuck
        | Op::Jump(_)
        | Op::Zero(_)
        | Op::Choose(_)
        | Op::Shift(_)
        | Op::Routine(_)
        | Op::Call(_)
        | Op::Return
        | Op::Turn
        | Op::Mark
        | Op::Pick(_)
        | Op::Bring(_) => Err(Halt::NoMemory),
    }
}

/// Gives a slot a value, and leaves it.
fn set(machine: &mut Machine, name: Variable, values: &[Value]) -> Result<Value, Halt>
    requires one { length values.now ≡ 1 }
    ensures does { (setting : Meant) → Does (operated setting (operation.set name) values.now (machine_of machine.old)) (machine_of machine.new) result }
    ensures keeps { Keeps machine.old machine.new }
{
    let [value] = values else {
        return Err(Halt::Stopped(Stop::BadPointer));
    };
    let kept = value.copied(machine.alloc)?;
    let left = value.copied(machine.alloc)?;
    machine.set(name, kept);
    Ok(left)
}

/// Loads what a pointer reaches.
#[inline(always)]
pub(crate) fn load(machine: &Machine, access: Access, values: &[Value]) -> Result<Value, Halt>
    requires one { length values.now ≡ 1 }
    ensures { (setting : Meant) → Does (operated setting (operation.load (access_of access)) values.now (machine_of machine.now)) (machine_of machine.now) result }
{
    let [its] = values else {
        return Err(Halt::Stopped(Stop::BadPointer));
    };
    match its.as_pointer() {
        Ok(its) => machine.load(access, its),
        Err(_) => Err(Halt::Stopped(Stop::BadPointer)),
    }
}

/// Stores a value where a pointer reaches, and leaves it.
#[inline(always)]
pub(crate) fn store(machine: &mut Machine, access: Access, values: &[Value]) -> Result<Value, Halt>
    requires two { length values.now ≡ 2 }
    ensures does { (setting : Meant) → Does (operated setting (operation.store (access_of access)) values.now (machine_of machine.old)) (machine_of machine.new) result }
    ensures keeps { Keeps machine.old machine.new }
    ensures kept { OnErr result (machine_of machine.new ≡ machine_of machine.old) }
{
    let [its, value] = values else {
        return Err(Halt::Stopped(Stop::BadPointer));
    };
    match its.as_pointer() {
        Ok(its) => put(machine, access, its, value),
        Err(_) => Err(Halt::Stopped(Stop::BadPointer)),
    }
}

/// Stores a value where a pointer reaches, and gives it back.
#[inline(always)]
fn put(machine: &mut Machine, access: Access, its: Pointer, value: &Value) -> Result<Value, Halt>
    ensures does { Does (stored (access_of access) its value.now (machine_of machine.old)) (machine_of machine.new) result }
    ensures keeps { Keeps machine.old machine.new }
    ensures kept { OnErr result (machine_of machine.new ≡ machine_of machine.old) }
{
    // It is copied first: nothing is changed where there is no memory for that.
    let left = value.copied(machine.alloc)?;
    match machine.put(access, its, value) {
        Ok(()) => Ok(left),
        Err(why) => Err(why),
    }
}

/// What an operation leaves on the stack that changes nothing else. The lowest value is the first.
pub(crate) fn give(machine: &Machine, op: Op, values: &[Value]) -> Result<Value, Halt>
    requires takes { Takes (operation_of op) (length values.now) }
    ensures { (setting : Meant) → Gives (operation_of op) setting values.now (machine_of machine.now) result }
{
    match op {
        Op::Load(access) => load(machine, access, values),
        Op::Get(_)
        | Op::Conv(_)
        | Op::Unary(_)
        | Op::Binary(_, _)
        | Op::IsNil
        | Op::Compare(_)
        | Op::Difference(_)
        | Op::Offset(_)
        | Op::Step { .. } => answer(machine, op, values),
        Op::Num(_)
        | Op::Nil
        | Op::Address(_)
        | Op::Set(_)
        | Op::Store(_)
        | Op::Drop
        | Op::Dup
        | Op::Tuck
        | Op::Jump(_)
        | Op::Zero(_)
        | Op::Choose(_)
        | Op::Shift(_)
        | Op::Routine(_)
        | Op::Call(_)
        | Op::Return
        | Op::Turn
        | Op::Mark
        | Op::Pick(_)
        | Op::Bring(_) => Err(Halt::NoMemory),
    }
}

/// Does an operation on its values, the lowest first, and gives what it leaves on the stack.
pub(crate) fn operate(
    setting: &Setting,
    machine: &mut Machine,
    op: Op,
    values: &[Value],
) -> Result<Value, Halt>
    requires takes { Takes (operation_of op) (length values.now) }
    ensures does { DoesAs (operation_of op) (setting_here setting.now) values.now (machine_of machine.old) (machine_of machine.new) result }
    ensures keeps { Keeps machine.old machine.new }
{
    match op {
        Op::Set(name) => set(machine, name, values),
        Op::Store(access) => store(machine, access, values),
        Op::Load(_)
        | Op::Get(_)
        | Op::Conv(_)
        | Op::Unary(_)
        | Op::Binary(_, _)
        | Op::IsNil
        | Op::Compare(_)
        | Op::Difference(_)
        | Op::Offset(_)
        | Op::Step { .. } => give(machine, op, values),
        Op::Num(_)
        | Op::Nil
        | Op::Address(_)
        | Op::Drop
        | Op::Dup
        | Op::Tuck
        | Op::Jump(_)
        | Op::Zero(_)
        | Op::Choose(_)
        | Op::Shift(_)
        | Op::Routine(_)
        | Op::Call(_)
        | Op::Return
        | Op::Turn
        | Op::Mark
        | Op::Pick(_)
        | Op::Bring(_) => Err(Halt::NoMemory),
    }
}
