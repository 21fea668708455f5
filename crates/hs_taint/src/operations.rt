//! The operations of a program by their numbers. `specs/Points.antt` says how they are numbered.

ghost use Rattle.std.specs.Prelude.{◌≡◌, ◌<◌, ◌≤◌, ◌^◌, ◌++◌, Some, IfOk, length, map};
ghost use Rattle.hs_taint.specs.Laws.Points.{IsPoint};
ghost use Rattle.hs_taint.specs.Points.{count_of, is_there, owned_by, owners_from, point_of, start_of, starts_from};

use hs_base::NoMemory;
use hs_code::{FunctionCode, Placed};
use std::alloc::Global;

/// The operations of the functions of a program, numbered one function after another.
#[derive(Drop)]
pub(crate) struct Operations<'a> {
    pub functions: &'a [FunctionCode],
    /// The number of the first operation of each function.
    pub starts: Vec<u32>,
    /// The function of each operation.
    pub owners: Vec<u32>,
    pub ghost starts_are: { starts.items ≡ starts_from 0 functions.now },
    pub ghost owners_are: { owners.items ≡ owners_from 0 functions.now },
    pub ghost few: { length owners.items < 2 ^ 32 },
}

/// An operation of a function, by its number there.
#[derive(Clone, Copy)]
pub(crate) struct At {
    pub function: u32,
    pub at: u32,
}

/// Numbers the operations of functions.
pub(crate) fn number_operations(
    alloc: Global,
    functions: &[FunctionCode],
) -> Result<Operations<'_>, NoMemory>
    ensures { IfOk result (λ its. its.functions.now ≡ functions.now) }
{
    let mut starts = Vec::new(alloc);
    let mut owners = Vec::new(alloc);
    'functions: for (number, code) in functions.iter().enumerate() {
        let function = u32::try_from(number).or(Err(NoMemory))?;
        let start = u32::try_from(owners.len()).or(Err(NoMemory))?;
        starts.push(start)?;
        owners = with_owners(owners, function, code.ops.items())?;
    }
    u32::try_from(owners.len()).or(Err(NoMemory))?;
    Ok(Operations {
        functions,
        starts,
        owners,
    })
}

/// The same list with the function of each of these operations at its end.
fn with_owners(mut owners: Vec<u32>, function: u32, ops: &[Placed]) -> Result<Vec<u32>, NoMemory>
    ensures { IfOk result (λ its. its.items ≡ owners.items ++ map (owned_by function) ops.now) }
{
    'ops: for _its in ops {
        owners.push(function)?;
    }
    Ok(owners)
}

impl Operations<'_> {
    /// The number of operations.
    pub(crate) fn count(&self) -> u32
        ensures { result ≡ count_of self.now.functions.now }
    {
        self.owners.len() as u32
    }

    /// The operation of a number.
    pub(crate) fn at(&self, number: u32) -> At
        requires within { number < count_of self.now.functions.now }
        ensures point { point_of self.now.functions.now number
            ≡ Some (record { function = result.function; at = result.at }) }
        ensures there { IsPoint self.now.functions.now number
            (record { function = result.function; at = result.at }) }
    {
        let function = self.owners[number as usize];
        At {
            function,
            at: number - self.starts[function as usize],
        }
    }

    /// Whether the function has that operation.
    pub(crate) fn has(&self, function: u32, at: u32) -> bool
        ensures { result ≡ is_there self.now.functions.now function at }
    {
        match self.functions.get(function as usize) {
            Some(code) => (at as usize) < code.ops.items().len(),
            None => false,
        }
    }

    /// The number of the first operation of a function.
    pub(crate) fn start(&self, function: u32) -> u32
        requires there { function < length self.now.functions.now }
        ensures start { result ≡ start_of self.now.functions.now function }
    {
        self.starts[function as usize]
    }
}
