//! State bytes that are put back on their handles.

ghost use Rattle.std.specs.Prelude.{◌≡◌, ◌≤◌, ◌+◌, ◌++◌, length, slice_get};
ghost use Rattle.hs_effects.specs.Calling.{whole_of};
ghost use Rattle.hs_flow.specs.Buffers.{HasRoom};
ghost use Rattle.hs_flow.specs.Programs.{IsNumbered, global_slots, local_slots, one_if, restorable_slots, scope_at, variables_in};
ghost use Rattle.hs_flow.specs.Restorable.{classes_below, is_pointer_slot, places_below, pointer_globals, pointer_locals, purgeable_at, purgeable_of, restorable};
ghost use Rattle.hs_flow.specs.Slots.{slot_if};
ghost use Rattle.hs_flow.specs.declared.fact.Slot.TheVariants as slot;
ghost use Rattle.hs_tree.specs.Classes.{is_slot};

use crate::naming::apart;
use crate::routine::is_pointer;
use crate::{Around, FactStatus, Facts, Slot};
use hs_code::Code;
use hs_tree::{Global, Variable, VariableDecl};
use hs_types::Types;

/// Whether the variable is a slot of a pointer type.
fn is_pointer_slot(types: &Types, variable: &VariableDecl) -> bool
    ensures { result ≡ is_pointer_slot types.now variable.now }
{
    variable.is_slot(types) && is_pointer(types, variable.type_id)
}

/// The slot may have a handle of a purgeable block, unless it is apart from the argument.
fn put_purgeable<A: Around>(into: &mut Facts, around: &A, argument: Slot, slot: Slot)
    requires room { HasRoom 1 into.old }
    ensures facts { into.new.facts
        ≡ into.old.facts ++ purgeable_at (A.given around.now) argument slot }
    ensures room { into.new.room ≡ into.old.room }
    ensures few { length into.new.facts ≤ length into.old.facts + 1 }
{
    if !apart(around, slot, argument) {
        into.put(FactStatus::Purgeable, slot);
    }
}

/// The same for a variable, if it is a slot of a pointer type.
fn put_variable<A: Around>(
    into: &mut Facts,
    around: &A,
    types: &Types,
    argument: Slot,
    it: &VariableDecl,
    slot: Slot,
)
    requires room { HasRoom (one_if (is_slot types.now it.now)) into.old }
    ensures facts { into.new.facts
        ≡ into.old.facts ++ purgeable_of
        (A.given around.now) argument (slot_if (is_pointer_slot types.now it.now) slot) }
    ensures room { into.new.room ≡ into.old.room }
    ensures few { length into.new.facts ≤ length into.old.facts
        + one_if (is_slot types.now it.now) }
{
    if is_pointer_slot(types, it) {
        put_purgeable(into, around, argument, slot);
    }
}

/// The same for each variable of the program.
fn put_globals<A: Around>(
    into: &mut Facts,
    around: &A,
    types: &Types,
    argument: Slot,
    globals: &[Global],
)
    requires few { length globals.now ≤ 4294967295 }
    requires room { HasRoom (global_slots types.now globals.now) into.old }
    ensures facts { into.new.facts
        ≡ into.old.facts
        ++ purgeable_of (A.given around.now) argument (pointer_globals types.now 0 globals.now) }
    ensures room { into.new.room ≡ into.old.room }
    ensures few { length into.new.facts
        ≤ length into.old.facts + global_slots types.now globals.now }
{
    'globals: for (place, it) in globals.iter().enumerate() {
        let slot = Slot::Variable(Variable::Global(place as u32));
        put_variable(into, around, types, argument, &it.variable, slot);
    }
}

/// The same for each variable of a function.
fn put_locals<A: Around>(
    into: &mut Facts,
    around: &A,
    types: &Types,
    argument: Slot,
    locals: &[VariableDecl],
)
    requires few { length locals.now ≤ 4294967295 }
    requires room { HasRoom (local_slots types.now locals.now) into.old }
    ensures facts { into.new.facts
        ≡ into.old.facts
        ++ purgeable_of (A.given around.now) argument (pointer_locals types.now 0 locals.now) }
    ensures room { into.new.room ≡ into.old.room }
    ensures few { length into.new.facts ≤ length into.old.facts + local_slots types.now locals.now }
{
    'locals: for (place, it) in locals.iter().enumerate() {
        let slot = Slot::Variable(Variable::Local(place as u32));
        put_variable(into, around, types, argument, it, slot);
    }
}

/// The same for each place below that one.
fn put_places<A: Around>(into: &mut Facts, around: &A, argument: Slot, base: u32)
    requires room { HasRoom base into.old }
    ensures facts { into.new.facts
        ≡ into.old.facts ++ purgeable_of (A.given around.now) argument (places_below base) }
    ensures room { into.new.room ≡ into.old.room }
    ensures few { length into.new.facts ≤ length into.old.facts + base }
{
    'places: for place in 0..base {
        put_purgeable(into, around, argument, Slot::Place(place));
    }
}

/// The same for each of so many classes.
fn put_classes<A: Around>(into: &mut Facts, around: &A, argument: Slot, classes: u32)
    requires room { HasRoom classes into.old }
    ensures facts { into.new.facts
        ≡ into.old.facts ++ purgeable_of (A.given around.now) argument (classes_below classes) }
    ensures room { into.new.room ≡ into.old.room }
    ensures few { length into.new.facts ≤ length into.old.facts + classes }
{
    'classes: for class in 0..classes {
        put_purgeable(into, around, argument, Slot::Class(class));
    }
}

/// The variables of the function of that number, if it is there.
fn locals_of<'a>(code: &'a Code, f: u32) -> &'a [VariableDecl]
    ensures { result.now ≡ variables_in (slice_get (whole_of code.now).program.functions f) }
{
    match code.program.functions.get(f as usize) {
        Some(function) => function.variables.items(),
        None => &[],
    }
}

/// The state byte of a purgeable block is put back on the handle in that place: each slot that is not apart from it may have a handle of the block.
pub(crate) fn put_back<A: Around>(into: &mut Facts, around: &A, code: &Code, f: u32, base: u32)
    requires few { IsNumbered (whole_of code.now) f }
    requires room { HasRoom (restorable_slots (whole_of code.now) f base) into.old }
    ensures facts { into.new.facts ≡ into.old.facts
        ++ purgeable_of (A.given around.now) (slot.Place base)
        (restorable (scope_at (whole_of code.now) f) (length code.now.classes.items) base) }
    ensures room { into.new.room ≡ into.old.room }
{
    let types = &code.program.types;
    let argument = Slot::Place(base);
    put_globals(into, around, types, argument, code.program.globals.items());
    put_locals(into, around, types, argument, locals_of(code, f));
    put_places(into, around, argument, base);
    put_classes(into, around, argument, code.classes.len() as u32);
}
