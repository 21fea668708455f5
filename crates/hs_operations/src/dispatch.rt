//! Operations that only take values from the stack of their call and leave others.

ghost use Rattle.std.specs.Prelude.{◌≡◌, length, reverse, true};
ghost use Rattle.hs_code.specs.declared.op.Op.TheVariants as op;
ghost use Rattle.hs_meaning.specs.Objects.{objects_for, variables_of};
ghost use Rattle.hs_operations.specs.Works.{Works, worked, works};
ghost use Rattle.hs_state.specs.Machines.{Keeps, machine_of};
ghost use Rattle.hs_state.specs.Settings.{setting_here};

use crate::places::{address, routine};
use crate::stacks::apply;
use crate::values::{bring, double, drop_top, push, tuck};
use hs_code::{Object, Op};
use hs_heap::Pointer;
use hs_layers::Layers;
use hs_state::{Machine, Setting};
use hs_values::{Halt, Value};

/// Puts the address of an object on top.
fn push_address(
    setting: &Setting,
    literals: u32,
    machine: &Machine,
    stack: &mut Layers<Value>,
    its: Object,
) -> Result<(), Halt>
    requires first { literals ≡ length (objects_for setting.now.types.now (variables_of setting.now.globals.now)) }
    ensures works { Works (worked (setting_here setting.now) (op.Address its) (reverse stack.old.top) (machine_of machine.now)) (reverse stack.new.top) (machine_of machine.now) result }
    ensures below { stack.new.below ≡ stack.old.below }
{
    match address(setting, literals, machine, its) {
        Ok(value) => push(stack, value),
        Err(why) => Err(why),
    }
}

/// Does an operation that only takes values from the stack of its call and leaves others, on that stack and the machine. `literals` is the number
/// of the object of the first string literal. An operation that finds too few values stops with `BadPointer`, as no code of a program does.
///
/// Example: `Binary(Add)` with 3 on top of 2 leaves 5, and `Dup` with 5 on top leaves 5 and 5.
///
/// # Errors
///
/// Why the operation stops. `NoMemory` if memory runs out.
pub fn work(
    setting: &Setting,
    literals: u32,
    machine: &mut Machine,
    stack: &mut Layers<Value>,
    op: Op,
) -> Result<(), Halt>
    requires works { works op ≡ true }
    requires first { literals ≡ length (objects_for setting.now.types.now (variables_of setting.now.globals.now)) }
    ensures works { Works (worked (setting_here setting.now) op (reverse stack.old.top) (machine_of machine.old)) (reverse stack.new.top) (machine_of machine.new) result }
    ensures keeps { Keeps machine.old machine.new }
    ensures below { stack.new.below ≡ stack.old.below }
{
    match op {
        Op::Num(bits) => push(stack, Value::number(bits)),
        Op::Nil => push(stack, Value::pointer(Pointer::Nil)),
        Op::Address(its) => push_address(setting, literals, machine, stack, its),
        Op::Get(_)
        | Op::Set(_)
        | Op::Binary(_, _)
        | Op::Load(_)
        | Op::Store(_)
        | Op::Conv(_)
        | Op::Unary(_)
        | Op::IsNil
        | Op::Compare(_)
        | Op::Difference(_)
        | Op::Offset(_)
        | Op::Step { .. } => apply(setting, machine, stack, op),
        Op::Drop => drop_top(stack),
        Op::Dup => double(machine.alloc, stack),
        Op::Tuck => tuck(machine.alloc, stack),
        Op::Routine(place) => routine(setting, machine, stack, place),
        Op::Mark => Ok(()),
        Op::Bring(place) => {
            bring(stack, place as usize);
            Ok(())
        }
        Op::Jump(_)
        | Op::Zero(_)
        | Op::Choose(_)
        | Op::Shift(_)
        | Op::Call(_)
        | Op::Return
        | Op::Turn
        | Op::Pick(_) => unreachable!(),
    }
}
