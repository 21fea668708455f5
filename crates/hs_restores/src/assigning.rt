//! What calls may assign, as the rows of facts ask for it.

ghost use Rattle.std.specs.Prelude.{◌≡◌, ◌≤◌, length};
ghost use Rattle.hs_rows.specs.Sets.{has, width};

use hs_effects::Assignments;
use hs_fact_rows::Callees;

/// Which globals the functions of a program may assign: so many functions, and so many globals.
#[derive(Drop)]
pub struct Assigning<'a> {
    pub assigned: &'a Assignments,
    pub functions: usize,
    pub globals: usize,
    pub ghost functions_fit: { functions ≤ assigned.now.count },
    pub ghost globals_fit: { globals ≤ width assigned.now },
}

impl<'a> Callees for Assigning<'a> {
    ghost use Rattle.hs_restores.specs.Restoring.{assigned_of};

    ghost assigned = { assigned_of };

    fn assigns(&self, function: u32, global: u32) -> bool
        ensures { result ≡ assigned_of self.now function global }
    {
        (function as usize) < self.functions
            && (global as usize) < self.globals
            && self.assigned.assigns(function, global)
    }
}
