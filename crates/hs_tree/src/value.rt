//! Trees of typed expressions (X3.159-1989 3.3). An expression that designates an object is an lvalue (3.2.2.1); any other gives a
//! value. Conversions stand in the tree, so that each operand has the type that its operator asks for.

ghost use Rattle.std.specs.Prelude.{◌≡◌};
ghost use Rattle.hs_tree.specs.Trees.{head_of, head_of_left};
ghost use Rattle.hs_tree.specs.Views.{view_right, view_left};

use crate::{Arithmetic, Comparison, Head, Stride, Unary, Variable};
use hs_types::{FieldId, Integer};

/// An expression that gives a value, or nothing if its type is `void`. A condition is always a number: a pointer is compared with
/// the null pointer first.
#[cycle(value)]
#[derive(Drop)]
pub enum Rvalue {
    /// A number, as 32 bits.
    Number {
        head: Head,
        bits: u32,
    },
    /// The null pointer (3.2.2.3).
    Nil {
        head: Head,
    },
    /// The value of an object (3.2.2.1).
    Load {
        head: Head,
        object: Box<Lvalue>,
    },
    /// An array or a string literal as the address of its first element (3.2.2.1).
    Decay {
        head: Head,
        array: Box<Lvalue>,
    },
    /// `&e` (3.3.3.2).
    Address {
        head: Head,
        object: Box<Lvalue>,
    },
    /// A cast (3.3.4). Its operand is converted already, so that it has the cast's type, unless the cast is to `void`.
    Cast {
        head: Head,
        operand: Box<Rvalue>,
    },
    /// A number as a number of this type (3.2.1.2).
    ConvertNumber {
        head: Head,
        kind: Integer,
        operand: Box<Rvalue>,
    },
    /// A pointer as a pointer of another type (own: no cast is needed).
    ConvertPointer {
        head: Head,
        operand: Box<Rvalue>,
    },
    /// An operation on a number of this type (3.3.3.3).
    Unary {
        head: Head,
        operator: Unary,
        kind: Integer,
        operand: Box<Rvalue>,
    },
    /// `!e` (3.3.3.3).
    Not {
        head: Head,
        operand: Box<Rvalue>,
    },
    /// An operation on two numbers of this type; of a shift, the left one alone is of it.
    Arithmetic {
        head: Head,
        operator: Arithmetic,
        kind: Integer,
        left: Box<Rvalue>,
        right: Box<Rvalue>,
    },
    /// A comparison of two numbers of this type.
    Comparison {
        head: Head,
        operator: Comparison,
        kind: Integer,
        left: Box<Rvalue>,
        right: Box<Rvalue>,
    },
    /// A comparison of two pointers.
    ComparePointers {
        head: Head,
        operator: Comparison,
        left: Box<Rvalue>,
        right: Box<Rvalue>,
    },
    /// Whether a pointer equals the null pointer, or does not (3.3.9).
    IsNil {
        head: Head,
        equal: bool,
        pointer: Box<Rvalue>,
    },
    /// A pointer and a number added, or a number subtracted from a pointer (3.3.6).
    Step {
        head: Head,
        stride: Stride,
        /// Whether the pointer is the left operand.
        pointer_first: bool,
        left: Box<Rvalue>,
        right: Box<Rvalue>,
    },
    /// The difference of two pointers to objects of this size (3.3.6).
    Difference {
        head: Head,
        size: u32,
        left: Box<Rvalue>,
        right: Box<Rvalue>,
    },
    /// `a && b` (3.3.13).
    And {
        head: Head,
        left: Box<Rvalue>,
        right: Box<Rvalue>,
    },
    /// `a || b` (3.3.14).
    Or {
        head: Head,
        left: Box<Rvalue>,
        right: Box<Rvalue>,
    },
    /// `c ? a : b` (3.3.15).
    Conditional {
        head: Head,
        test: Box<Rvalue>,
        then: Box<Rvalue>,
        otherwise: Box<Rvalue>,
    },
    /// `a, b, c` (3.3.17): the left operands, and the last right one.
    Comma {
        head: Head,
        lefts: Vec<Rvalue>,
        right: Box<Rvalue>,
    },
    /// `l = e` (3.3.16.1).
    Assign {
        head: Head,
        target: Box<Lvalue>,
        value: Box<Rvalue>,
    },
    /// `l op= e` on numbers (3.3.16.2): the operation is done on numbers of the type `kind`, and its result is converted to the type
    /// `to` of the target. `++l` is `l += 1` (3.3.3.1).
    Update {
        head: Head,
        operator: Arithmetic,
        kind: Integer,
        to: Integer,
        target: Box<Lvalue>,
        value: Box<Rvalue>,
    },
    /// `p += n` and `p -= n`.
    Advance {
        head: Head,
        stride: Stride,
        target: Box<Lvalue>,
        value: Box<Rvalue>,
    },
    /// `l++` and `l--` of a number (3.3.2.4): the value before 1 is added or subtracted, as in `Update`.
    PostUpdate {
        head: Head,
        operator: Arithmetic,
        kind: Integer,
        to: Integer,
        target: Box<Lvalue>,
    },
    /// `p++` and `p--`.
    PostAdvance {
        head: Head,
        stride: Stride,
        target: Box<Lvalue>,
    },
    /// A call of a defined function (3.3.2.2), by its place among the functions of the program. It may be bound to a routine, which
    /// may move or purge memory after the arguments are evaluated.
    Call {
        head: Head,
        function: u32,
        routine: Option<u32>,
        arguments: Vec<Rvalue>,
    },
    /// A call of a routine, by its place in the table.
    CallRoutine {
        head: Head,
        routine: u32,
        arguments: Vec<Rvalue>,
    },
}

/// An expression that designates an object.
#[cycle(value)]
#[derive(Drop)]
pub enum Lvalue {
    Variable {
        head: Head,
        variable: Variable,
    },
    /// A string literal (3.1.4), by its place among those of the program.
    Literal {
        head: Head,
        literal: u32,
    },
    /// `*e` (3.3.3.2).
    Target {
        head: Head,
        pointer: Box<Rvalue>,
    },
    /// `a[i]` (3.3.2.1).
    Element {
        head: Head,
        /// The size of an element.
        size: u32,
        /// Whether the pointer is the left operand.
        pointer_first: bool,
        left: Box<Rvalue>,
        right: Box<Rvalue>,
    },
    /// `e.f` (3.3.2.3), and the byte at which the field lies.
    Member {
        head: Head,
        field: FieldId,
        offset: u32,
        object: Box<Lvalue>,
    },
    /// `e->f` (3.3.2.3), and the byte at which the field lies.
    Arrow {
        head: Head,
        field: FieldId,
        offset: u32,
        pointer: Box<Rvalue>,
    },
}

impl Lvalue {
    /// Its position and origin, and its type.
    pub fn head(&self) -> Head
        ensures { result ≡ head_of_left (view_left self.now) }
    {
        match self {
            Lvalue::Variable { head, .. }
            | Lvalue::Literal { head, .. }
            | Lvalue::Target { head, .. }
            | Lvalue::Element { head, .. }
            | Lvalue::Member { head, .. }
            | Lvalue::Arrow { head, .. } => *head,
        }
    }
}

impl Rvalue {
    /// Its position and origin, and its type.
    pub fn head(&self) -> Head
        ensures { result ≡ head_of (view_right self.now) }
    {
        match self {
            Rvalue::Number { head, .. }
            | Rvalue::Nil { head }
            | Rvalue::Load { head, .. }
            | Rvalue::Decay { head, .. }
            | Rvalue::Address { head, .. }
            | Rvalue::Cast { head, .. }
            | Rvalue::ConvertNumber { head, .. }
            | Rvalue::ConvertPointer { head, .. }
            | Rvalue::Unary { head, .. }
            | Rvalue::Not { head, .. }
            | Rvalue::Arithmetic { head, .. }
            | Rvalue::Comparison { head, .. }
            | Rvalue::ComparePointers { head, .. }
            | Rvalue::IsNil { head, .. }
            | Rvalue::Step { head, .. }
            | Rvalue::Difference { head, .. }
            | Rvalue::And { head, .. }
            | Rvalue::Or { head, .. }
            | Rvalue::Conditional { head, .. }
            | Rvalue::Comma { head, .. }
            | Rvalue::Assign { head, .. }
            | Rvalue::Update { head, .. }
            | Rvalue::Advance { head, .. }
            | Rvalue::PostUpdate { head, .. }
            | Rvalue::PostAdvance { head, .. }
            | Rvalue::Call { head, .. }
            | Rvalue::CallRoutine { head, .. } => *head,
        }
    }
}
