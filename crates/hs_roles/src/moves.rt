//! Cells that are copied from one place to another.

ghost use Rattle.std.specs.Prelude.{◌≡◌};
ghost use Rattle.std.specs.Result.{result_map_both};
ghost use Rattle.hs_heap.specs.declared.cell.Pointer.TheVariants as at;
ghost use Rattle.hs_meaning.specs.Accesses.{use_stops};
ghost use Rattle.hs_meaning.specs.Roles.{is_handle};
ghost use Rattle.hs_meaning.specs.Values.{pointer_in};
ghost use Rattle.hs_roles.specs.Parts.{cells_read, copies, moves};
ghost use Rattle.hs_state.specs.Machines.{Does, Keeps, machine_of};
ghost use Rattle.hs_values.specs.Answers.{Halts, or_first};

use crate::allocations::size_in;
use hs_heap::{Cell, Pointer, Spot};
use hs_meaning::Stop;
use hs_state::{Machine, stop_of};
use hs_values::{Halt, Value};

/// Returns the pointer that the value is. Any other value, which no typed program has here, counts as NIL.
fn pointer_in(its: &Value) -> Pointer
    ensures { result ≡ pointer_in its.now }
{
    its.as_pointer().unwrap_or(Pointer::Nil)
}

/// Tests whether the pointer is the address of a master pointer.
fn is_handle(its: Pointer) -> bool
    ensures { result ≡ is_handle its }
{
    matches!(its, Pointer::Handle(_))
}

/// Tests whether a pointer into a block reaches so many cells. Takes no memory.
///
/// # Errors
///
/// Why it does not.
fn test(machine: &mut Machine, its: &Spot, count: u32) -> Result<(), Stop>
    ensures tests { result ≡ or_first (use_stops (at.Spot its.now) count (machine_of machine.old)) tt }
    ensures same { machine_of machine.new ≡ machine_of machine.old }
    ensures keeps { Keeps machine.old machine.new }
{
    if !machine.is_made(its.block) {
        return Err(Stop::BadPointer);
    }
    // A move of cells onto themselves changes nothing.
    match machine.heap.block_move(its, its, count) {
        Ok(()) => Ok(()),
        Err(why) => Err(stop_of(why)),
    }
}

/// Copies cells from one block to another, or inside one. Takes no memory.
///
/// # Errors
///
/// Why the pointers do not reach so many. The first one is tested first.
fn copy_between(machine: &mut Machine, from: &Spot, to: &Spot, count: u32) -> Result<(), Halt>
    ensures does { Does (copies (at.Spot from.now) (at.Spot to.now) count (machine_of machine.old)) (machine_of machine.new) result }
    ensures keeps { Keeps machine.old machine.new }
{
    if !machine.is_made(from.block) || !machine.is_made(to.block) {
        test(machine, from, count)?;
        return Err(Halt::Stopped(Stop::BadPointer));
    }
    match machine.heap.block_move(from, to, count) {
        Ok(()) => Ok(()),
        Err(why) => Err(Halt::Stopped(stop_of(why))),
    }
}

/// Returns a copy of the cells that a pointer into a block reaches.
///
/// # Errors
///
/// Why it does not reach so many, before memory is taken for them. `NoMemory`.
fn copy_of_block(machine: &mut Machine, from: &Spot, count: u32) -> Result<Vec<Cell>, Halt>
    ensures copied { Halts (cells_read (at.Spot from.now) count (machine_of machine.old)) (result_map_both (λ cells. cells.items) (λ why. why) result) }
    ensures same { machine_of machine.new ≡ machine_of machine.old }
    ensures keeps { Keeps machine.old machine.new }
{
    test(machine, from, count)?;
    let mut cells = vec![in machine.alloc; Cell::Undefined; count as usize]?;
    match machine.heap.load(from, cells.as_mut_slice()) {
        Ok(()) => Ok(cells),
        Err(why) => Err(Halt::Stopped(stop_of(why))),
    }
}

/// Returns a copy of the cells that a pointer reaches.
///
/// # Errors
///
/// Why it does not reach so many, before memory is taken for them. `NoMemory`.
fn copy_of(machine: &mut Machine, from: Pointer, count: u32) -> Result<Vec<Cell>, Halt>
    ensures copied { Halts (cells_read from count (machine_of machine.old)) (result_map_both (λ cells. cells.items) (λ why. why) result) }
    ensures same { machine_of machine.new ≡ machine_of machine.old }
    ensures keeps { Keeps machine.old machine.new }
{
    match from {
        Pointer::Nil => Err(Halt::Stopped(Stop::Nil)),
        Pointer::Handle(_) => Err(Halt::Stopped(Stop::BadLoad)),
        Pointer::Fixed(object, at) => {
            let cells = machine.objects.cells(object, at, count as usize)?;
            Ok(Vec::from_slice(machine.alloc, cells)?)
        }
        Pointer::Spot(from) => copy_of_block(machine, &from, count),
    }
}

/// Copies so many cells from where one pointer reaches to where another does, also if the two overlap.
///
/// # Errors
///
/// Why the pointers do not reach so many. The first one is tested first, and nothing is changed then. `NoMemory`, unless both are into blocks.
fn copy(machine: &mut Machine, from: Pointer, to: Pointer, count: u32) -> Result<(), Halt>
    ensures does { Does (copies from to count (machine_of machine.old)) (machine_of machine.new) result }
    ensures keeps { Keeps machine.old machine.new }
{
    if let (Pointer::Spot(from), Pointer::Spot(to)) = (from, to) {
        return copy_between(machine, &from, &to, count);
    }
    let cells = copy_of(machine, from, count)?;
    machine.write(to, cells.as_slice())
}

/// Copies bytes from where one pointer reaches to where another does (BlockMove).
///
/// # Errors
///
/// Those of a count that is no number. `BadPointer` for a handle, `Range` for a count below 0, and then why the cells are not reached: first
/// from the first pointer, then from the second one. Nothing is changed then. `NoMemory`.
pub(crate) fn block_move(
    machine: &mut Machine,
    from: &Value,
    to: &Value,
    count: &Value,
) -> Result<Value, Halt>
    ensures does { Does (moves (pointer_in from.now) (pointer_in to.now) count.now (machine_of machine.old)) (machine_of machine.new) result }
    ensures keeps { Keeps machine.old machine.new }
{
    let bits = count.bits()?;
    let (from, to) = (pointer_in(from), pointer_in(to));
    if is_handle(from) || is_handle(to) {
        return Err(Halt::Stopped(Stop::BadPointer));
    }
    let Some(count) = size_in(bits) else {
        return Err(Halt::Stopped(Stop::Range));
    };
    copy(machine, from, to, count)?;
    Ok(Value::number(0))
}
