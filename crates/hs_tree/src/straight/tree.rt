//! The tree of a straight program.

ghost use Rattle.std.specs.Prelude.{IsTrue};
ghost use Rattle.hs_tree.specs.Straight.Fine.{is_fine};

use crate::straight::{Steps, Variables};
use hs_base::{Bytes, Pos};

/// What a variable of a straight program holds.
#[derive(Clone, Copy, Debug)]
pub enum Kind {
    /// `char **`: a handle.
    Handle,
    /// `char *`: a pointer.
    Pointer,
    /// `char`.
    Letter,
}

/// A declared variable. Its number is its place, from 0, among all declared variables.
#[derive(Debug, Drop)]
pub struct Variable {
    pub kind: Kind,
    pub name: Bytes,
}

/// An expression of type `char` or `int`, with the place where its use may stop.
#[derive(Clone, Copy, Debug, PartialEq, Eq)]
pub enum Expr {
    /// The value of a letter. The place is that of the name.
    Letter { pos: Pos, letter: u32 },
    /// What a pointer points to. The place is that of the `*`.
    Load { pos: Pos, pointer: u32 },
    /// A number, at most 127.
    Number { value: u8 },
}

/// A step of `main`, with the place where it may stop.
#[derive(Clone, Copy, Debug, PartialEq, Eq)]
pub enum Step {
    /// `handle = NewHandle(size);`
    NewHandle { handle: u32, size: u16 },
    /// `HLock(handle);` The place is that of the routine's name.
    HLock { pos: Pos, handle: u32 },
    /// `HUnlock(handle);` The place is that of the routine's name.
    HUnlock { pos: Pos, handle: u32 },
    /// `pointer = *handle;` The place is that of the `*`.
    Derive { pos: Pos, pointer: u32, handle: u32 },
    /// `letter = value;`
    Set { letter: u32, value: Expr },
    /// `*pointer = value;` The place is that of the `=`.
    Store { pos: Pos, pointer: u32, value: Expr },
    /// `putchar(value);`
    Putchar { value: Expr },
}

/// The tree of a straight program.
#[derive(Drop)]
pub struct Straight {
    pub variables: Variables,
    pub steps: Steps,
    ghost fine: { IsTrue (is_fine variables steps) },
}
