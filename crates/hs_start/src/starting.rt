//! What a program starts with (X3.159-1989 3.5.7).

ghost use Rattle.std.specs.Prelude.{◌≡◌, [], length, IfOk};
ghost use Rattle.hs_meaning.specs.Objects.{objects_for, starting_machine, variables_of};
ghost use Rattle.hs_state.specs.Machines.{machine_of};
ghost use Rattle.hs_state.specs.Settings.{setting_here};

use crate::bases::Bases;
use crate::objects::{add_literals, add_variables};
use crate::variables::{first_bindings, object_count};
use hs_base::NoMemory;
use hs_heap::Heap;
use hs_layers::Layers;
use hs_meaning::Input;
use hs_objects::Objects;
use hs_state::{Machine, Refusals, Setting};
use std::alloc::Global;

/// The number of the object of the first string literal: those of the variables come before it.
///
/// # Errors
///
/// `NoMemory` if it has more than 32 bits.
pub fn first_literal(setting: &Setting) -> Result<u32, NoMemory>
    ensures { IfOk result (λ first. first ≡ length (objects_for setting.now.types.now (variables_of setting.now.globals.now))) }
{
    object_count(setting.types, setting.globals.items())
}

/// The machine before `main` is called, with that input.
///
/// # Errors
///
/// `NoMemory` if memory runs out.
pub fn start<'a>(
    alloc: Global,
    setting: &Setting,
    input: &'a Input,
) -> Result<Machine<'a>, NoMemory>
    ensures starts { IfOk result (λ its. machine_of its ≡ starting_machine (setting_here setting.now) input.now) }
    ensures no_callers { IfOk result (λ its. its.locals.below ≡ []) }
    ensures no_shifts { IfOk result (λ its. its.heap.shifts ≡ 0) }
{
    let bases = Bases::of(alloc, *setting)?;
    let globals = first_bindings(alloc, &bases, setting.globals.items())?;
    let mut objects = Objects::new(alloc);
    add_variables(alloc, &bases, &mut objects, setting.globals.items())?;
    add_literals(alloc, &mut objects, setting.literals.items())?;
    let refused = Refusals::of(alloc, input.refused.items())?;
    Ok(Machine {
        alloc,
        heap: Heap::new(alloc),
        blocks: 0,
        objects,
        globals,
        locals: Layers::new(alloc),
        frames: 0,
        bytes: input.bytes.items(),
        words: input.words.items(),
        refused,
        allocations: 0,
        output: Vec::new(alloc),
    })
}
