//! The table of effects.

ghost use Rattle.std.specs.Prelude.{◌≡◌, ◌<◌, ◌≤◌, IfOk, cond, length};
ghost use Rattle.hs_effects.specs.Answers.{IsExact, in_set};
ghost use Rattle.hs_effects.specs.Calling.{whole_of};
ghost use Rattle.hs_effects.specs.Effecting.{AreRestores, number_of, restored};
ghost use Rattle.hs_facts.specs.Effects.{Effect};
ghost use Rattle.hs_rows.specs.Sets.{has, width};

use crate::assignments::{Assignments, assigned_under_calls};
use crate::callers::callers;
use crate::closing::closed;
use crate::own_effects::{is_restore, own_effects};
use bitflags::Flags;
use hs_base::NoMemory;
use hs_code::{Code, Effects};
use hs_rows::Rows;
use std::alloc::Global;
use std::marker::Model;

/// What each function of a program may do, itself or in the functions that it calls.
#[derive(Drop)]
pub struct EffectTable {
    /// The numbers of the effects of each function.
    effects: Rows,
    assigned: Assignments,
    /// For each function, which of its operations are restores.
    restores: Vec<Vec<bool>>,
}

impl Model for EffectTable {
    ghost use Rattle.std.specs.Prelude.{◌≤◌};
    ghost use Rattle.hs_effects.specs.Answers.{Answers};
    ghost use Rattle.hs_rows.specs.Sets.{width};

    ghost Value = { Answers };

    ghost view = { λ it. record { effects = it.effects; assigned = it.assigned; restores = it.restores.items } };

    ghost invariant = { λ it. 6 ≤ width it.effects };
}

impl EffectTable {
    /// The effects of the function, by its number.
    ///
    /// Example: of a function that calls one that calls `HUnlock`, `Effects::UNLOCKS` and `Effects::BITS`.
    pub fn of(&self, f: u32) -> Effects
        requires function_in_range { f < self.now.effects.count }
        ensures { (effect : Effect) → in_set result.0 effect ≡ has self.now.effects f (number_of effect) }
    {
        let f = f as usize;
        let moves = word_if(self.effects.has(f, 0), 1);
        let purges = word_if(self.effects.has(f, 1), 2);
        let unlocks = word_if(self.effects.has(f, 2), 4);
        let marks = word_if(self.effects.has(f, 3), 8);
        let bits = word_if(self.effects.has(f, 4), 16);
        let disposes = word_if(self.effects.has(f, 5), 32);
        Effects::from_bits_retain(moves | purges | unlocks | marks | bits | disposes)
    }

    /// Whether the function may assign the global, by their numbers.
    ///
    /// Example: in `int a; void f(void) { a = 1; } void g(void) { f(); }` the function `g` may assign `a`.
    pub fn assigns(&self, f: u32, global: u32) -> bool
        requires function_in_range { f < self.now.assigned.count }
        requires global_in_range { global < width self.now.assigned }
        ensures { result ≡ has self.now.assigned f global }
    {
        self.assigned.assigns(f, global)
    }

    /// Lends what functions may assign.
    ///
    /// Example: its `assigns` answers as that of the table.
    pub fn assigned(&self) -> &Assignments
        ensures { result.now ≡ self.now.assigned }
    {
        &self.assigned
    }

    /// Whether the operation is a restore: a set_state whose byte was read from the handle on which it is put.
    ///
    /// Example: `HSetState(h, s);` is one after `s = HGetState(h);`, and none after `h = g;`.
    pub fn restores(&self, f: u32, at: u32) -> bool
        ensures { result ≡ restored self.now.restores f at }
    {
        is_restore(&self.restores, f as usize, at as usize)
    }
}

/// The effects of the functions of a program, if its restores are noted. A function has an effect if an operation of it has the effect, or of a
/// function to which a chain of calls leads from it.
///
/// Example: a function that calls one that calls `HUnlock` unlocks.
///
/// # Errors
///
/// `NoMemory` if memory runs out.
pub fn effects_with_restores(
    alloc: Global,
    code: &Code,
    restores: Vec<Vec<bool>>,
) -> Result<EffectTable, NoMemory>
    requires restores { AreRestores (whole_of code.now) restores.items }
    ensures functions { IfOk result (λ table. table.effects.count ≡ length code.now.functions.items) }
    ensures assigned { IfOk result (λ table. table.assigned.count ≡ length code.now.functions.items) }
    ensures globals { IfOk result (λ table. length code.now.program.now.globals ≤ width table.assigned) }
    ensures exact { IfOk result (λ table. IsExact (whole_of code.now) table) }
{
    let assigned = assigned_under_calls(alloc, code)?;
    let callers = callers(alloc, code)?;
    let own = own_effects(alloc, code, &restores)?;
    let effects = closed(own, &callers)?;
    Ok(EffectTable {
        effects,
        assigned,
        restores,
    })
}

/// A flag, or no bit.
fn word_if(has: bool, flag: u8) -> u8
    ensures { result ≡ cond has flag 0 }
{
    if has { flag } else { 0 }
}
