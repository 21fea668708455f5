//! The graph of a program, as it is made from its tables.

ghost use Rattle.std.specs.Prelude.{◌≡◌, ◌<◌, ◌≤◌, ℕ, IfOk, IfSome, Some, length, slice_get};
ghost use Rattle.hs_effects.specs.Calling.{whole_of};
ghost use Rattle.hs_flow.specs.Programs.{IsNumbered};
ghost use Rattle.hs_must.specs.Answers.{HasMany, names_in};
ghost use Rattle.hs_restores.specs.Stepping.{greatest};
ghost use Rattle.hs_rows.specs.Sets.{width};
ghost use Rattle.hs_taint.specs.Coding.{numbers};
ghost use Rattle.hs_taint.specs.Sizes.{most_facts, most_values, most_variables};
ghost use Rattle.hs_taint.specs.Stepping.{AreNames};

use crate::graph::ProgramGraph;
use crate::operations::number_operations;
use hs_base::NoMemory;
use hs_code::{Code, FunctionCode, Placed};
use hs_effects::EffectTable;
use hs_must::Must;
use hs_restores::names_of;
use hs_tree::{Function, Variable};
use std::alloc::Global;
use std::cell::Cell;

/// The graph of a program whose functions have no more than 64 handle names, with its tables.
pub(crate) fn program_graph<'a>(
    alloc: Global,
    code: &'a Code<'a>,
    effects: &'a EffectTable,
    must: &'a Must,
) -> Result<ProgramGraph<'a>, NoMemory>
    requires functions { effects.now.effects.count ≡ length code.now.functions.items }
    requires assigned { effects.now.assigned.count ≡ length code.now.functions.items }
    requires globals { length code.now.program.now.globals ≤ width effects.now.assigned }
    requires few { (f : ℕ) → HasMany (whole_of code.now) f → ⊥ }
    ensures code { IfOk result (λ it. it.code.now ≡ code.now) }
    ensures effects { IfOk result (λ it. it.effects.now ≡ effects.now) }
    ensures must { IfOk result (λ it. it.must.now ≡ must.now) }
{
    // A program has a function `main`, so chains begin at an operation.
    let _main = code.program.main_function();
    let room = room_in(code).ok_or(NoMemory)?;
    let names = all_names(alloc, code)?;
    let operations = number_operations(alloc, code.functions.as_slice())?;
    Ok(ProgramGraph {
        alloc,
        code,
        effects,
        must,
        operations,
        names,
        room,
        buffer: Cell::new(None),
    })
}

/// How many facts a step may give at most, if variables and classes have numbers of 32 bits.
fn room_in(code: &Code) -> Option<usize>
    ensures numbered { IfSome result (λ room. (f : ℕ) → IsNumbered (whole_of code.now) f) }
    ensures values { IfSome result (λ room. most_values 0 code.now.functions.items < numbers) }
    ensures room { IfSome result (λ room. most_facts code.now ≤ room) }
{
    let globals = u32::try_from(code.program.globals.items().len()).ok()?;
    let variables = u32::try_from(most_variables(code.program.functions.as_slice())).ok()?;
    let classes = u32::try_from(code.classes.len()).ok()?;
    let values = most_values(code.functions.as_slice());
    Some(6 + globals as usize + variables as usize + values as usize + classes as usize)
}

/// The most variables that a function has.
fn most_variables(functions: &[Function]) -> usize
    ensures { result ≡ most_variables 0 functions.now }
{
    let mut most = 0;
    'functions: for function in functions {
        most = most.max(function.variables.items().len());
    }
    most
}

/// The most values that are on the stack before an operation.
fn most_values(functions: &[FunctionCode]) -> u32
    ensures { result ≡ most_values 0 functions.now }
{
    let mut most = 0;
    'functions: for code in functions {
        most = greatest(most, code.ops.items());
    }
    most
}

/// The most values that are on the stack before an operation of a function, if there are no more than that number.
fn greatest(least: u32, ops: &[Placed]) -> u32
    ensures { result ≡ greatest least ops.now }
{
    let mut most = least;
    'ops: for its in ops {
        most = most.max(its.places);
    }
    most
}

/// The handle names of each function.
fn all_names(alloc: Global, code: &Code) -> Result<Vec<Vec<Variable>>, NoMemory>
    ensures names { IfOk result (λ its. AreNames (whole_of code.now) its.items) }
    ensures each { IfOk result (λ its. length its.items ≡ length code.now.functions.items) }
{
    let mut all = Vec::new(alloc);
    'functions: for (number, own) in code.functions.iter().enumerate() {
        let names = own_names(alloc, code, number, own)?;
        all.push(names)?;
    }
    Ok(all)
}

/// The handle names of a function.
fn own_names(
    alloc: Global,
    code: &Code,
    number: usize,
    own: &FunctionCode,
) -> Result<Vec<Variable>, NoMemory>
    requires of_code { slice_get code.now.functions.items number ≡ Some own.now }
    ensures { IfOk result (λ its. its.items ≡ names_in (whole_of code.now) number) }
{
    let mut all = Vec::new(alloc);
    if let Some(function) = code.program.functions.get(number) {
        let names = names_of(alloc, code.program, function, own)?;
        all.extend_from_slice(names.items())?;
    }
    Ok(all)
}
