//! Trees of statements (X3.159-1989 3.6).

use crate::{Decl, Expr};
use hs_tokens::Place;

/// A statement (X3.159-1989 3.6). `at` is the place of its first keyword.
#[cycle(stmt)]
#[derive(Drop)]
pub enum Stmt {
    Block(Block),
    Expr(Expr),
    /// A semicolon alone; its place.
    Empty(Place),
    If {
        at: Place,
        test: Expr,
        then: Box<Stmt>,
    },
    IfElse {
        at: Place,
        test: Expr,
        then: Box<Stmt>,
        otherwise: Box<Stmt>,
    },
    While {
        at: Place,
        test: Expr,
        body: Box<Stmt>,
    },
    Do {
        at: Place,
        body: Box<Stmt>,
        test: Expr,
    },
    For {
        at: Place,
        first: Option<Expr>,
        test: Option<Expr>,
        step: Option<Expr>,
        body: Box<Stmt>,
    },
    Switch {
        at: Place,
        value: Expr,
        body: Block,
    },
    Break(Place),
    Continue(Place),
    Return {
        at: Place,
        value: Option<Expr>,
    },
}

/// A compound statement (3.6.2), and the places of its braces.
#[cycle(stmt)]
#[derive(Drop)]
pub struct Block {
    pub opening: Place,
    pub declarations: Vec<Decl>,
    pub statements: Vec<Labelled>,
    pub closing: Place,
}

/// A statement with the labels in front of it (3.6.1).
#[cycle(stmt)]
#[derive(Drop)]
pub struct Labelled {
    pub labels: Vec<Label>,
    pub statement: Stmt,
}

/// A label of a switch.
#[derive(Drop)]
pub enum Label {
    Case { at: Place, value: Expr },
    Default(Place),
}
