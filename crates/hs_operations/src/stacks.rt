//! Operations on the stack of their call.

ghost use Rattle.std.specs.Prelude.{◌≡◌, ◌≤◌, ◌-◌, ◌++◌, ◌∷◌, [], length, take, reverse, slice_get, Some, Err, OnOk, OnErr, IfSome};
ghost use Rattle.hs_code.specs.declared.op.Op.TheVariants as op;
ghost use Rattle.hs_code_run.specs.Steps.{operation_of};
ghost use Rattle.hs_meaning.specs.Machine.{Machine as Meant};
ghost use Rattle.hs_meaning.specs.Settings.{Setting as Given};
ghost use Rattle.hs_meaning.specs.Values.{pointer};
ghost use Rattle.hs_operations.specs.Operating.{Takes};
ghost use Rattle.hs_operations.specs.Numbers.{PutsAt};
ghost use Rattle.hs_operations.specs.Works.{Tries, TriesAs, WorksAs, operated};
ghost use Rattle.hs_state.specs.Machines.{Keeps, machine_of};
ghost use Rattle.hs_state.specs.Settings.{setting_here};
ghost use Rattle.hs_values.specs.declared.halt.Halt.TheVariants.{NoMemory as no_memory};

use crate::operate::{give, load, operate, store};
use crate::operators::step;
use hs_code::{Access, Op};
use hs_heap::Pointer;
use hs_layers::Layers;
use hs_meaning::Stop;
use hs_state::{Machine, Setting};
use hs_tree::Stride;
use hs_values::{Halt, Value};

/// How many values an operation takes that leaves one.
fn takes(op: Op) -> usize
    ensures { Takes (operation_of op) result }
{
    match op {
        Op::Get(_) => 0,
        Op::Set(_) | Op::Load(_) | Op::Conv(_) | Op::Unary(_) | Op::IsNil | Op::Offset(_) => 1,
        Op::Store(_) | Op::Binary(_, _) | Op::Compare(_) | Op::Difference(_) | Op::Step { .. } => 2,
        Op::Num(_)
        | Op::Nil
        | Op::Address(_)
        | Op::Drop
        | Op::Dup
        | Op::Tuck
        | Op::Jump(_)
        | Op::Zero(_)
        | Op::Choose(_)
        | Op::Shift(_)
        | Op::Routine(_)
        | Op::Call(_)
        | Op::Return
        | Op::Turn
        | Op::Mark
        | Op::Pick(_)
        | Op::Bring(_) => 0,
    }
}

/// Replaces the values from place `low` on by one value.
pub(crate) fn replace(stack: &mut Layers<Value>, low: usize, value: Value) -> Result<(), Halt>
    ensures top { OnOk result (stack.new.top ≡ take low stack.old.top ++ value ∷ []) }
    ensures below { stack.new.below ≡ stack.old.below }
    ensures memory { OnErr result (result ≡ Err no_memory) }
{
    stack.truncate(low);
    match stack.push(value) {
        Ok(()) => Ok(()),
        Err(_) => Err(Halt::NoMemory),
    }
}

/// Does an operation that takes values from the top of the stack of its call and leaves one: a load, a store, arithmetic, a comparison, or the
/// value of a slot. It stops with `BadPointer` if the stack has fewer values than it takes. Nothing is said of any other operation.
///
/// # Errors
///
/// Why the operation stops. The stack is then as it was. `NoMemory` if memory runs out.
pub(crate) fn apply(
    setting: &Setting,
    machine: &mut Machine,
    stack: &mut Layers<Value>,
    op: Op,
) -> Result<(), Halt>
    ensures works { WorksAs (operation_of op) (setting_here setting.now) stack.old.top (machine_of machine.old) (machine_of machine.new) stack.new.top result }
    ensures keeps { Keeps machine.old machine.new }
    ensures below { stack.new.below ≡ stack.old.below }
{
    let values = stack.items();
    let count = takes(op);
    if values.len() < count {
        return Err(Halt::Stopped(Stop::BadPointer));
    }
    let low = values.len() - count;
    let (_, high) = values.split_at(low);
    match operate(setting, machine, op, high) {
        Ok(value) => replace(stack, low, value),
        Err(why) => Err(why),
    }
}

/// Replaces the value on top.
#[inline(always)]
pub(crate) fn put_for_one(stack: &mut Layers<Value>, value: Value)
    requires one { 1 ≤ length stack.old.top }
    ensures top { stack.new.top ≡ take (length stack.old.top - 1) stack.old.top ++ value ∷ [] }
    ensures below { stack.new.below ≡ stack.old.below }
{
    let count = stack.items().len();
    stack.replace(count - 1, value).discard();
}

/// Replaces the two values on top by one value.
#[inline(always)]
pub(crate) fn put_for_two(stack: &mut Layers<Value>, value: Value)
    requires two { 2 ≤ length stack.old.top }
    ensures top { stack.new.top ≡ take (length stack.old.top - 2) stack.old.top ++ value ∷ [] }
    ensures below { stack.new.below ≡ stack.old.below }
{
    let count = stack.items().len();
    stack.replace(count - 2, value).discard();
    let _upper = stack.pop();
}

/// The value on top, if there is one.
#[inline(always)]
pub(crate) fn top_value(stack: &Layers<Value>) -> Option<&Value>
    ensures { IfSome result (λ value. slice_get stack.now.top (length stack.now.top - 1) ≡ Some value.now) }
{
    let values = stack.items();
    values.get(values.len().saturating_sub(1))
}

/// The pointer on top, if a pointer is there.
#[inline(always)]
#[tactic(auto, using(crate::specs::Numbers::is_pointer))]
pub(crate) fn top_pointer(stack: &Layers<Value>) -> Option<Pointer>
    ensures { IfSome result (λ its. slice_get stack.now.top (length stack.now.top - 1) ≡ Some (pointer its)) }
{
    let Some(value) = top_value(stack) else {
        return None;
    };
    match value.as_pointer() {
        Ok(its) => Some(its),
        Err(_) => None,
    }
}

/// Loads what the pointer on top reaches, if the load does not stop.
#[inline(always)]
pub(crate) fn load_top(machine: &Machine, stack: &mut Layers<Value>, access: Access) -> bool
    ensures tries { (setting : Given) → TriesAs (operation_of (op.Load access)) setting stack.old.top stack.new.top (machine_of machine.now) result }
    ensures below { stack.new.below ≡ stack.old.below }
{
    let values = stack.items();
    if values.len() < 1 {
        return false;
    }
    let (_, high) = values.split_at(values.len() - 1);
    match load(machine, access, high) {
        Ok(value) => {
            put_for_one(stack, value);
            true
        }
        Err(_) => false,
    }
}

/// Stores the value on top where the pointer below it reaches, if the store does not stop.
#[inline(always)]
pub(crate) fn store_top(machine: &mut Machine, stack: &mut Layers<Value>, access: Access) -> bool
    ensures tries { (setting : Given) → Tries (operated setting (operation_of (op.Store access)) (reverse stack.old.top) (machine_of machine.old)) stack.old.top stack.new.top (machine_of machine.old) (machine_of machine.new) result }
    ensures keeps { Keeps machine.old machine.new }
    ensures below { stack.new.below ≡ stack.old.below }
{
    let values = stack.items();
    if values.len() < 2 {
        return false;
    }
    let (_, high) = values.split_at(values.len() - 2);
    match store(machine, access, high) {
        Ok(value) => {
            put_for_two(stack, value);
            true
        }
        Err(_) => false,
    }
}

/// Moves a pointer by a number, if that does not stop. Both are on top.
#[inline(always)]
pub(crate) fn step_top(stack: &mut Layers<Value>, stride: Stride, pointer_first: bool) -> bool
    ensures tries { (setting : Given) (machine : Meant) → TriesAs (operation_of (op.Step stride pointer_first)) setting stack.old.top stack.new.top machine result }
    ensures below { stack.new.below ≡ stack.old.below }
{
    let values = stack.items();
    if values.len() < 2 {
        return false;
    }
    let (_, high) = values.split_at(values.len() - 2);
    match step(stride, pointer_first, high) {
        Ok(value) => {
            put_for_two(stack, value);
            true
        }
        Err(_) => false,
    }
}

/// Replaces the values from place `low` on by one value. If there are no values from there on, it pushes the value, and
/// does nothing if memory runs out.
fn put_at(stack: &mut Layers<Value>, low: usize, value: Value) -> bool
    requires within { low ≤ length stack.old.top }
    ensures puts { PutsAt low value stack.old.top stack.new.top result }
    ensures below { stack.new.below ≡ stack.old.below }
{
    if low == stack.items().len() {
        return match stack.push(value) {
            Ok(()) => true,
            Err(_) => false,
        };
    }
    stack.set(low, value);
    stack.truncate(low + 1);
    true
}

/// Does an operation that takes values from the top and leaves one, and changes nothing else, if it does not stop. Whether it was done; if not,
/// nothing is changed. Nothing is said of any other operation.
#[inline(never)]
pub(crate) fn apply_giving(machine: &Machine, stack: &mut Layers<Value>, op: Op) -> bool
    ensures tries { (setting : Given) → TriesAs (operation_of op) setting stack.old.top stack.new.top (machine_of machine.now) result }
    ensures below { stack.new.below ≡ stack.old.below }
{
    let values = stack.items();
    let count = takes(op);
    if values.len() < count {
        return false;
    }
    let low = values.len() - count;
    let (_, high) = values.split_at(low);
    match give(machine, op, high) {
        Ok(value) => put_at(stack, low, value),
        Err(_) => false,
    }
}
