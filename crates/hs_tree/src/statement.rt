//! Trees of typed statements (X3.159-1989 3.6).

use crate::{Parts, Rvalue};
use hs_tokens::Place;

/// A statement (X3.159-1989 3.6). `at` is the place of its first token. Each controlling expression is a number.
#[cycle(statement)]
#[derive(Drop)]
pub enum Statement {
    Block(Block),
    Expression {
        at: Place,
        value: Box<Rvalue>,
    },
    /// A semicolon alone; its place.
    Empty(Place),
    If {
        at: Place,
        test: Box<Rvalue>,
        then: Box<Statement>,
    },
    IfElse {
        at: Place,
        test: Box<Rvalue>,
        then: Box<Statement>,
        otherwise: Box<Statement>,
    },
    While {
        at: Place,
        test: Box<Rvalue>,
        body: Box<Statement>,
    },
    Do {
        at: Place,
        body: Box<Statement>,
        test: Box<Rvalue>,
    },
    For {
        at: Place,
        first: Option<Box<Rvalue>>,
        test: Option<Box<Rvalue>>,
        step: Option<Box<Rvalue>>,
        body: Box<Statement>,
    },
    /// The labels in the body's own list belong to the switch.
    Switch {
        at: Place,
        value: Box<Rvalue>,
        body: Block,
    },
    Break(Place),
    Continue(Place),
    Return {
        at: Place,
        value: Option<Box<Rvalue>>,
    },
}

/// A compound statement (3.6.2), and the places of its braces. Of its declarations it has those that give an automatic variable a
/// value.
#[cycle(statement)]
#[derive(Drop)]
pub struct Block {
    pub opening: Place,
    pub declarations: Vec<Declaration>,
    pub statements: Vec<Labelled>,
    pub closing: Place,
}

/// A statement with the labels in front of it (3.6.1).
#[cycle(statement)]
#[derive(Drop)]
pub struct Labelled {
    pub labels: Vec<Label>,
    pub statement: Statement,
}

/// A label of a switch.
#[derive(Clone, Copy)]
pub enum Label {
    /// The constant, as 32 bits of the type of the controlling expression.
    Case { at: Place, bits: u32 },
    Default(Place),
}

/// A declaration that gives automatic variables their first values (3.5.7), and the place of its first token.
#[derive(Drop)]
pub struct Declaration {
    pub at: Place,
    pub items: Vec<Initialised>,
}

/// A variable that is given its first value: its place among the locals of its function, and the place of its name.
#[derive(Drop)]
pub struct Initialised {
    pub variable: u32,
    pub at: Place,
    pub value: Initial,
}

/// What an automatic variable starts with.
#[derive(Drop)]
pub enum Initial {
    /// A value of the variable's type.
    Value(Box<Rvalue>),
    /// Constants for the scalars of an array or a struct.
    Parts(Parts),
}
