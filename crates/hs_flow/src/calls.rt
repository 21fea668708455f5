//! What is known of a function that is called.

ghost use Rattle.std.specs.List.{position};
ghost use Rattle.std.specs.Prelude.{◌≡◌, ◌<◌, ◌≤◌, IfSome, length, slice_get, take};
ghost use Rattle.hs_effects.specs.Calling.{whole_of};
ghost use Rattle.hs_facts.specs.Effects.{marks, moves, purges, unlocks};
ghost use Rattle.hs_flow.specs.Calls.{assigned, assigns_name, base_of, to_parameter};
ghost use Rattle.hs_flow.specs.Laws.Parameters.{some_parameter};
ghost use Rattle.hs_flow.specs.Programs.{IsTableFor, callee_of, does, object_slot, parameter_slot, parameters_in, parameters_of, same_class};

use crate::routine::{base_of, is_pointer};
use crate::{Around, Slot};
use bitflags::Flags;
use hs_code::{Code, Effects};
use hs_effects::EffectTable;
use hs_tree::{Class, Variable, VariableDecl};
use hs_types::TypeId;

/// Whether the function may move memory.
pub(crate) fn moves(effects: &EffectTable, f: u32) -> bool
    requires function_in_range { f < effects.now.effects.count }
    ensures { result ≡ does effects.now f moves }
{
    effects.of(f).contains(Effects::MOVES)
}

/// Whether it may purge blocks.
pub(crate) fn purges(effects: &EffectTable, f: u32) -> bool
    requires function_in_range { f < effects.now.effects.count }
    ensures { result ≡ does effects.now f purges }
{
    effects.of(f).contains(Effects::PURGES)
}

/// Whether it may unlock a block.
pub(crate) fn unlocks(effects: &EffectTable, f: u32) -> bool
    requires function_in_range { f < effects.now.effects.count }
    ensures { result ≡ does effects.now f unlocks }
{
    effects.of(f).contains(Effects::UNLOCKS)
}

/// Whether it may mark a block as purgeable.
pub(crate) fn marks(effects: &EffectTable, f: u32) -> bool
    requires function_in_range { f < effects.now.effects.count }
    ensures { result ≡ does effects.now f marks }
{
    effects.of(f).contains(Effects::MARKS)
}

/// Whether the function may assign the variable.
pub(crate) fn assigns(code: &Code, f: u32, effects: &EffectTable, variable: Variable) -> bool
    requires table { IsTableFor (whole_of code.now) effects.now f }
    ensures { result ≡ assigned (callee_of (whole_of code.now) effects.now f) variable }
{
    match variable {
        Variable::Global(place) => {
            (place as usize) < code.program.globals.items().len() && effects.assigns(f, place)
        }
        Variable::Local(_) => false,
    }
}

/// Whether it may assign the name of that number.
pub(crate) fn assigns_name<A: Around>(
    code: &Code,
    f: u32,
    effects: &EffectTable,
    around: &A,
    h: u32,
) -> bool
    requires table { IsTableFor (whole_of code.now) effects.now f }
    ensures { result
        ≡ assigns_name (callee_of (whole_of code.now) effects.now f) (A.given around.now) h }
{
    match around.names().get(h as usize) {
        Some(name) => assigns(code, f, effects, *name),
        None => false,
    }
}

/// The place of a class in a list, if it is there.
fn place_of(classes: &[Class], class: &Class) -> Option<usize>
    ensures place { result ≡ position (same_class class.now) classes.now }
    ensures below { IfSome result (λ place. place < length classes.now) }
{
    classes.iter().position(|it| class == it)
}

/// The slot of a pointer in an object of that type: its class, if the code names it.
fn object_slot(code: &Code, id: TypeId) -> Option<Slot>
    requires few { length code.now.classes.items ≤ 4294967295 }
    ensures { result
        ≡ object_slot code.now.program.now.types code.now.program.now.same
        code.now.classes.items id }
{
    if !is_pointer(&code.program.types, id) {
        return None;
    }
    let class = Class::Pointer(code.program.same.type_for(id));
    match place_of(&code.classes, &class) {
        Some(number) => Some(Slot::Class(number as u32)),
        None => None,
    }
}

/// Where the argument of that place goes, if that is its parameter: to a slot, or to the class of an object.
fn parameter_slot(code: &Code, place: u32, its: &VariableDecl) -> Option<Slot>
    requires few { length code.now.classes.items ≤ 4294967295 }
    ensures { result
        ≡ parameter_slot code.now.program.now.types code.now.program.now.same
        code.now.classes.items place its.now }
{
    if its.is_slot(&code.program.types) {
        Some(Slot::Variable(Variable::Local(place)))
    } else {
        object_slot(code, its.type_id)
    }
}

/// The parameters of the function of that number, if it is there.
fn parameters_of<'a>(code: &'a Code, f: u32) -> &'a [VariableDecl]
    ensures { result.now ≡ parameters_in (slice_get (whole_of code.now).program.functions f) }
{
    match code.program.functions.get(f as usize) {
        Some(function) => front(function.variables.items(), function.parameters),
        None => &[],
    }
}

/// The first variables, so many of them or all.
fn front(variables: &[VariableDecl], count: u32) -> &[VariableDecl]
    ensures { result.now ≡ take count variables.now }
{
    let count = (count as usize).min(variables.len());
    &variables[..count]
}

/// Where the argument of that place goes, if these are the parameters.
fn parameter_in(code: &Code, parameters: &[VariableDecl], place: u32) -> Option<Slot>
    requires few { length code.now.classes.items ≤ 4294967295 }
    ensures { result
        ≡ some_parameter code.now.program.now.types code.now.program.now.same
        code.now.classes.items place (slice_get parameters.now place) }
{
    match parameters.get(place as usize) {
        Some(its) => parameter_slot(code, place, its),
        None => None,
    }
}

/// Where the argument of that place goes.
pub(crate) fn parameter(code: &Code, f: u32, place: u32) -> Option<Slot>
    requires few { length code.now.classes.items ≤ 4294967295 }
    ensures { result ≡ to_parameter (slice_get (parameters_of (whole_of code.now) f) place) }
{
    parameter_in(code, parameters_of(code, f), place)
}

/// The place of the first argument, where the result will be.
#[tactic(auto, using(crate::specs::Laws::Parameters::length_parameters))]
pub(crate) fn base<A: Around>(code: &Code, f: u32, around: &A) -> u32
    ensures { result ≡ base_of (parameters_of (whole_of code.now) f) (A.given around.now) }
{
    base_of(around.places(), parameters_of(code, f).len())
}
