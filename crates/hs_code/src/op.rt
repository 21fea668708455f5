//! Operations on a stack (own). Each takes values from the top and leaves one, if nothing else is said.

use hs_tree::{Arithmetic, Comparison, Stride, Unary as Sign, Variable};
use hs_types::Integer;

/// What has an address: an object that is a variable, or a string literal by its place among those of the program.
#[derive(Clone, Copy, Debug, PartialEq, Eq)]
pub enum Object {
    Variable(Variable),
    Literal(u32),
}

/// What a load or a store reaches.
#[derive(Clone, Copy, Debug, PartialEq, Eq)]
pub enum Access {
    /// A number of this type.
    Number(Integer),
    /// A pointer of the class of this number.
    Pointer(u32),
    /// A struct of so many bytes.
    Struct(u32),
}

/// An operation on one number.
#[derive(Clone, Copy, Debug, PartialEq, Eq)]
pub enum Unary {
    Sign(Sign),
    /// 1 for 0, and 0 for any other number.
    Not,
}

/// An operation on two numbers.
#[derive(Clone, Copy, Debug, PartialEq, Eq)]
pub enum Binary {
    Arithmetic(Arithmetic),
    /// Leaves 1 or 0.
    Comparison(Comparison),
}

/// Where a switch goes.
#[derive(Clone, Copy, Debug, PartialEq, Eq)]
pub struct Goal {
    /// The first of its cases, by its place among those of the function.
    pub first: u32,
    /// The place after its last case.
    pub end: u32,
    /// The operation to which it goes if no case fits.
    pub default: u32,
}

/// An operation. Operations, functions, routines and classes are named by their numbers, each from 0.
#[derive(Clone, Copy, Debug, PartialEq, Eq)]
pub enum Op {
    /// Leaves a number, as 32 bits.
    Num(u32),
    /// Leaves the null pointer.
    Nil,
    /// Leaves the address of an object.
    Address(Object),
    /// Leaves the value of a slot.
    Get(Variable),
    /// Gives the top to a slot, and keeps it on the stack.
    Set(Variable),
    /// Takes a pointer, and leaves what it loads.
    Load(Access),
    /// Takes a value and the pointer below it, stores the value, and leaves it.
    Store(Access),
    /// Takes the top, and leaves nothing.
    Drop,
    /// Leaves the top and a copy of it.
    Dup,
    /// From a and v on top of it: leaves v, a and v.
    Tuck,
    /// A number as one of this type.
    Conv(Integer),
    Unary(Unary),
    /// An operation on two numbers of this type; of a shift, the left one alone is of it.
    Binary(Binary, Integer),
    /// Takes a pointer, and leaves 1 if it is the null pointer, and else 0.
    IsNil,
    /// Takes two pointers, and leaves 1 or 0.
    Compare(Comparison),
    /// Takes two pointers to objects of this size, and leaves how many objects are between them.
    Difference(u32),
    /// Takes a pointer, and leaves the one that is so many bytes on.
    Offset(u32),
    /// Takes a pointer and a number, and leaves the pointer that is so many objects on.
    Step {
        stride: Stride,
        /// Whether the number is on top.
        pointer_first: bool,
    },
    /// Goes on at that operation.
    Jump(u32),
    /// Takes a number, and goes on at that operation if it is 0.
    Zero(u32),
    /// Takes a number, and goes on at its case.
    Choose(Goal),
    /// Takes the next decision of the schedule, for that routine.
    Shift(u32),
    /// Takes the arguments of a routine, and leaves its result.
    Routine(u32),
    /// Takes the arguments of a function, and leaves its result.
    Call(u32),
    /// Ends the call with the top as its result.
    Return,
    /// Takes a turn of the run. Leaves the stack as it is.
    Turn,
    /// Does nothing: the start or the end of a piece of text.
    Mark,
    /// Takes the next choice of an order of operands, and goes on at that operation if it is 1. No code has one yet.
    Pick(u32),
    /// Moves the value of that place, counted from 1 at the top, to the top. No code has one yet.
    Bring(u32),
}
