//! Variables by their numbers.

ghost use Rattle.std.specs.Prelude.{◌≡◌, ◌++◌, ◌∷◌, [], IfOk, OnOk, length, slice_get};
ghost use Rattle.hs_fact_rows.specs.Cells.{index_of};
ghost use Rattle.hs_facts.specs.Names.{named_if};
ghost use Rattle.hs_restores.specs.Marks.{listed, listed_from, number_if, number_or, numbered, variable_of};

use hs_base::NoMemory;
use hs_tree::Variable;
use std::alloc::Global;
use std::marker::Model;

/// Whose variables are numbered.
#[derive(Clone, Copy)]
pub(crate) enum Whose {
    /// Those of a function.
    Local,
    /// Those of the program.
    Global,
}

/// Variables, numbered by their places in a list. Contracts see the list.
#[derive(Drop)]
pub struct Numbers {
    list: Vec<Variable>,
    /// The number of each variable of the function, if it is in the list.
    locals: Vec<Option<usize>>,
    /// The number of each global.
    globals: Vec<Option<usize>>,
}

impl Model for Numbers {
    ghost use Rattle.std.specs.Prelude.{◌≡◌, List, length};
    ghost use Rattle.hs_fact_rows.specs.Cells.{index_of};
    ghost use Rattle.hs_restores.specs.Marks.{number_of};
    ghost use Rattle.hs_tree.specs.declared.head.Variable.{Variable};

    ghost Value = { List Variable };

    ghost view = { λ it. it.list.items };

    ghost invariant = { λ it. (v : Variable) → number_of it.locals.items it.globals.items (length it.list.items) v ≡ index_of it.list.items v };
}

impl Numbers {
    /// Lends the list.
    pub fn items(&self) -> &[Variable]
        ensures { result.now ≡ self.now }
    {
        self.list.as_slice()
    }

    /// The number of a variable, or the length of the list if it is not there.
    ///
    /// Example: 1 for the local 2 in the list of the locals 0 and 2, and 2 for the local 1.
    pub fn find(&self, variable: Variable) -> usize
        ensures { result ≡ index_of self.now variable }
    {
        let len = self.list.len();
        match variable {
            Variable::Local(place) => number_at(&self.locals, place, len),
            Variable::Global(place) => number_at(&self.globals, place, len),
        }
    }
}

/// The number that a table has at that place, or the other one.
fn number_at(table: &[Option<usize>], place: u32, other: usize) -> usize
    ensures { result ≡ number_or other (slice_get table.now place) }
{
    match table.get(place as usize) {
        Some(Some(number)) => *number,
        Some(None) | None => other,
    }
}

/// Numbers the variables that are marked, the locals first.
pub(crate) fn number_marked(
    alloc: Global,
    locals: &[bool],
    globals: &[bool],
) -> Result<Numbers, NoMemory>
    ensures { IfOk result (λ its. its ≡ listed locals.now globals.now) }
{
    let (list, locals) = number_each(alloc, Vec::new(alloc), Whose::Local, locals)?;
    let (list, globals) = number_each(alloc, list, Whose::Global, globals)?;
    Ok(Numbers {
        list,
        locals,
        globals,
    })
}

/// Puts the variables that are marked at the end of a list, and finds their numbers.
fn number_each(
    alloc: Global,
    list: Vec<Variable>,
    whose: Whose,
    marks: &[bool],
) -> Result<(Vec<Variable>, Vec<Option<usize>>), NoMemory>
    ensures list { IfOk result (λ its. its.0.items ≡ list.items ++ listed_from whose 0 marks.now) }
    ensures numbers { IfOk result (λ its. its.1.items ≡ numbered (length list.items) marks.now) }
{
    let mut list = list;
    let mut numbers = Vec::new(alloc);
    'marks: for (place, mark) in marks.iter().enumerate() {
        let number = put(&mut list, whose, place, *mark)?;
        numbers.push(number)?;
    }
    Ok((list, numbers))
}

/// Puts a variable at the end of the list if it is marked, and returns its number.
fn put(
    list: &mut Vec<Variable>,
    whose: Whose,
    place: usize,
    mark: bool,
) -> Result<Option<usize>, NoMemory>
    ensures list { OnOk result (list.new.items ≡ list.old.items ++ named_if mark (variable_of whose place) []) }
    ensures number { IfOk result (λ its. its ≡ number_if mark (length list.old.items)) }
{
    if !mark {
        return Ok(None);
    }
    let number = list.len();
    list.push(variable(whose, place)?)?;
    Ok(Some(number))
}

/// The variable of that place, if there are so many: a place is a number of 32 bits.
fn variable(whose: Whose, place: usize) -> Result<Variable, NoMemory>
    ensures { IfOk result (λ its. its ≡ variable_of whose place) }
{
    let Ok(place) = u32::try_from(place) else {
        return Err(NoMemory);
    };
    match whose {
        Whose::Local => Ok(Variable::Local(place)),
        Whose::Global => Ok(Variable::Global(place)),
    }
}
