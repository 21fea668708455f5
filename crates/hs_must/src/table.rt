//! The must facts of a program, as they are asked for.

ghost use Rattle.std.specs.Prelude.{◌≡◌, ◌<◌, ◌&&◌, length};
ghost use Rattle.hs_must.specs.Answers.{distinct_in, live_in, locked_in, rows_in, saved_in_slot, with_in};

use crate::kept::Kept;
use hs_rows::Rows;
use hs_tree::Variable;
use std::marker::Model;

/// What is true before each operation of a program on every control path from the start of its function. Contracts see what is kept of each
/// function, in the order of the functions.
#[derive(Drop)]
pub struct Must {
    pub(crate) functions: Vec<Kept>,
}

impl Model for Must {
    ghost use Rattle.std.specs.Prelude.{List};
    ghost use Rattle.hs_must.specs.declared.kept.Kept.{Kept};

    ghost Value = { List Kept };

    ghost view = { λ it. it.functions.items };
}

impl Must {
    /// Returns whether the handle of a name is locked before operation `at` of the function `f`, on every control path. Names are numbered as in
    /// the list of handle names of the function.
    ///
    /// Example: true for the name 0 at the operations after `HLock(h);` in `void f(Handle h)`, and false at those before.
    pub fn locked(&self, f: u32, at: u32, h: u32) -> bool
        ensures { result ≡ locked_in self.now f at h }
    {
        match self.functions.get(f as usize) {
            Some(Kept::Named(its)) => its.locked(at as usize, h as usize),
            Some(Kept::Nameless(_)) | None => false,
        }
    }

    /// Returns whether a name has a value, and not a disposed handle.
    ///
    /// Example: true after `HLock(h);`, and false after `DisposeHandle(h);`.
    pub fn live(&self, f: u32, at: u32, h: u32) -> bool
        ensures { result ≡ live_in self.now f at h }
    {
        match self.functions.get(f as usize) {
            Some(Kept::Named(its)) => its.live(at as usize, h as usize),
            Some(Kept::Nameless(_)) | None => false,
        }
    }

    /// Returns whether two names have no handles of one block.
    ///
    /// Example: true after `b = NewHandle(4);`, for `b` and each other name.
    pub fn distinct(&self, f: u32, at: u32, a: u32, b: u32) -> bool
        ensures { result ≡ distinct_in self.now f at a b }
    {
        match self.functions.get(f as usize) {
            Some(Kept::Named(its)) => its.distinct(at as usize, a as usize, b as usize),
            Some(Kept::Nameless(_)) | None => false,
        }
    }

    /// Returns whether a place of the stack, which is there, has the value of a name.
    ///
    /// Example: true for the place 0 and the name `h` at the operation after the first `Get` of `h` in a statement.
    pub fn with(&self, f: u32, at: u32, place: u32, h: u32) -> bool
        ensures { result ≡ with_in self.now f at place h }
    {
        match self.functions.get(f as usize) {
            Some(Kept::Named(its)) => its.with(at as usize, place as usize, h as usize),
            Some(Kept::Nameless(_)) | None => false,
        }
    }

    /// Returns whether a place of the stack has the value of a name, whose handle is locked.
    ///
    /// Example: false for a name that is not locked.
    pub fn with_lock(&self, f: u32, at: u32, place: u32, h: u32) -> bool
        ensures { result ≡ (with_in self.now f at place h && locked_in self.now f at h) }
    {
        self.with(f, at, place, h) && self.locked(f, at, h)
    }

    /// Returns whether a slot variable has a state byte that was read from the handle in a name.
    ///
    /// Example: true for `s` and `h` after `s = HGetState(h);`.
    pub fn saved(&self, f: u32, at: u32, slot: Variable, h: u32) -> bool
        ensures { result ≡ saved_in_slot self.now f at slot h }
    {
        match self.functions.get(f as usize) {
            Some(Kept::Named(its)) => its.saved(at as usize, slot, h as usize),
            Some(Kept::Nameless(_)) | None => false,
        }
    }
    /// Lends the rows of a function, one for each of its operations. In a function with n handle names the row of an operation has the number a if
    /// `locked` answers true of a there, n + a if `live` does, and 2n + a * n + b if a and b are two names of which `distinct` does.
    ///
    /// Example: in `void f(Handle h) { HLock(h); g(); }` the row of the call of `g` has the numbers 0 and 1.
    pub fn rows(&self, f: u32) -> &Rows
        requires function_in_range { f < length self.now }
        ensures { result.now ≡ rows_in self.now f }
    {
        match &self.functions[f as usize] {
            Kept::Named(its) => &its.locks,
            Kept::Nameless(rows) => rows,
        }
    }
}
