//! The globals that functions may assign.

ghost use Rattle.std.specs.Bool.{Decides};
ghost use Rattle.std.specs.Prelude.{◌≡◌, ◌<◌, ◌≤◌, ℕ, IfOk, length};
ghost use Rattle.hs_effects.specs.Calling.{whole_of};
ghost use Rattle.hs_facts.specs.Effects.{Assigns};
ghost use Rattle.hs_rows.specs.Sets.{has, width};

use crate::callers::callers;
use crate::closing::closed;
use crate::own::assigned;
use hs_base::NoMemory;
use hs_code::Code;
use hs_rows::Rows;
use std::alloc::Global;
use std::marker::Model;

/// Which globals each function may assign, itself or in the functions that it calls. Contracts see rows of sets, one row for each function: the
/// numbers are the places of globals among those of the program.
#[derive(Drop)]
pub struct Assignments {
    rows: Rows,
}

impl Model for Assignments {
    ghost use Rattle.hs_rows.specs.Sets.{Sets};

    ghost Value = { Sets };

    ghost view = { λ it. it.rows };
}

impl Assignments {
    /// Whether the function may assign the global, by their numbers.
    ///
    /// Example: in `int a; void f(void) { a = 1; } void g(void) { f(); }` the function `g` may assign `a`.
    pub fn assigns(&self, f: u32, global: u32) -> bool
        requires function_in_range { f < self.now.count }
        requires global_in_range { global < width self.now }
        ensures { result ≡ has self.now f global }
    {
        self.rows.has(f as usize, global as usize)
    }
}

/// The globals that the functions of a program may assign. A function may assign a global if an operation of it sets the global, or of a function to
/// which a chain of calls leads from it.
///
/// Example: none for a program without globals.
///
/// # Errors
///
/// `NoMemory` if memory runs out.
pub fn assigned_under_calls(alloc: Global, code: &Code) -> Result<Assignments, NoMemory>
    ensures functions { IfOk result (λ its. its.count ≡ length code.now.functions.items) }
    ensures globals { IfOk result (λ its. length code.now.program.now.globals ≤ width its) }
    ensures exact { IfOk result (λ its. (f g : ℕ) → f < its.count → g < width its
        → Decides (has its f g) (Assigns (whole_of code.now) f g)) }
{
    let callers = callers(alloc, code)?;
    let own = assigned(alloc, code)?;
    let rows = closed(own, &callers)?;
    Ok(Assignments { rows })
}
