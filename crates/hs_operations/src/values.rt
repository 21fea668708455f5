//! Operations that leave what is there already: constants, addresses, and values of the stack itself.

ghost use Rattle.std.specs.Prelude.{◌≡◌, ◌∷◌, reverse};
ghost use Rattle.hs_code.specs.declared.op.Op.TheVariants as op;
ghost use Rattle.hs_code_run.specs.Steps.{brought};
ghost use Rattle.hs_meaning.specs.Machine.{Machine as Meant, done};
ghost use Rattle.hs_meaning.specs.Settings.{Setting as Given};
ghost use Rattle.hs_operations.specs.Works.{Works, worked};

use hs_layers::Layers;
use hs_meaning::Stop;
use hs_values::{Halt, Value};
use std::alloc::Global;

/// Puts a value on top.
pub(crate) fn push(stack: &mut Layers<Value>, value: Value) -> Result<(), Halt>
    ensures top { (machine : Meant) → Works (done (value ∷ reverse stack.old.top) machine) (reverse stack.new.top) machine result }
    ensures below { stack.new.below ≡ stack.old.below }
{
    match stack.push(value) {
        Ok(()) => Ok(()),
        Err(_) => Err(Halt::NoMemory),
    }
}

/// Takes the value on top.
pub(crate) fn drop_top(stack: &mut Layers<Value>) -> Result<(), Halt>
    ensures top { (setting : Given) (machine : Meant) → Works (worked setting op.Drop (reverse stack.old.top) machine) (reverse stack.new.top) machine result }
    ensures below { stack.new.below ≡ stack.old.below }
{
    // Cut where it is: a value that is popped is moved first.
    let count = stack.items().len();
    if count == 0 {
        return Err(Halt::Stopped(Stop::BadPointer));
    }
    stack.truncate(count - 1);
    Ok(())
}

/// Copies the value on top.
pub(crate) fn double(alloc: Global, stack: &mut Layers<Value>) -> Result<(), Halt>
    ensures top { (setting : Given) (machine : Meant) → Works (worked setting op.Dup (reverse stack.old.top) machine) (reverse stack.new.top) machine result }
    ensures below { stack.new.below ≡ stack.old.below }
{
    let Some(value) = stack.pop() else {
        return Err(Halt::Stopped(Stop::BadPointer));
    };
    let copy = value.copied(alloc)?;
    stack.push(value)?;
    stack.push(copy)?;
    Ok(())
}

/// Puts a copy of the value on top below the value that is under it.
pub(crate) fn tuck(alloc: Global, stack: &mut Layers<Value>) -> Result<(), Halt>
    ensures top { (setting : Given) (machine : Meant) → Works (worked setting op.Tuck (reverse stack.old.top) machine) (reverse stack.new.top) machine result }
    ensures below { stack.new.below ≡ stack.old.below }
{
    let Some(value) = stack.pop() else {
        return Err(Halt::Stopped(Stop::BadPointer));
    };
    let Some(under) = stack.pop() else {
        return Err(Halt::Stopped(Stop::BadPointer));
    };
    let copy = value.copied(alloc)?;
    stack.push(copy)?;
    stack.push(under)?;
    stack.push(value)?;
    Ok(())
}

/// Moves the value of that place, counted from 1 at the top, to the top. A place that is not there changes nothing.
pub(crate) fn bring(stack: &mut Layers<Value>, place: usize)
    ensures top { reverse stack.new.top ≡ brought place (reverse stack.old.top) }
    ensures below { stack.new.below ≡ stack.old.below }
{
    let count = stack.items().len();
    if 0 < place && place <= count {
        stack.bring(count - place);
    }
}
