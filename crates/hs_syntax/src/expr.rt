//! Trees of expressions, types and declarators (X3.159-1989 3.3 and 3.5).

use crate::{
    Access, AssignOperator, Basic, BinaryOperator, Dropped, Pointer, PostfixOperator,
    PrefixOperator, Storage, Word,
};
use hs_tokens::Place;

/// An expression (X3.159-1989 3.3): a variant for each production. `at` is the place of its operator, or of what its line says.
#[cycle(expr)]
#[derive(Drop)]
pub enum Expr {
    Name(Word),
    Number(Word),
    Character(Word),
    /// Adjacent string literals: the first, and the others.
    Strings(Word, Vec<Word>),
    /// An expression in parentheses; the place of the left one.
    Parens {
        at: Place,
        inner: Box<Expr>,
    },
    Index {
        base: Box<Expr>,
        at: Place,
        index: Box<Expr>,
    },
    Call {
        callee: Box<Expr>,
        arguments: Vec<Expr>,
    },
    Member {
        base: Box<Expr>,
        access: Access,
        at: Place,
        name: Word,
    },
    Postfix {
        operand: Box<Expr>,
        operator: PostfixOperator,
        at: Place,
    },
    Prefix {
        operator: PrefixOperator,
        at: Place,
        operand: Box<Expr>,
    },
    SizeofValue {
        at: Place,
        operand: Box<Expr>,
    },
    SizeofType {
        at: Place,
        type_name: Box<TypeName>,
    },
    /// The place of the left parenthesis.
    Cast {
        at: Place,
        type_name: Box<TypeName>,
        operand: Box<Expr>,
    },
    Binary {
        left: Box<Expr>,
        operator: BinaryOperator,
        at: Place,
        right: Box<Expr>,
    },
    /// The place of the `?`.
    Conditional {
        test: Box<Expr>,
        at: Place,
        then: Box<Expr>,
        otherwise: Box<Expr>,
    },
    Assign {
        target: Box<Expr>,
        operator: AssignOperator,
        at: Place,
        value: Box<Expr>,
    },
    /// Expressions with commas between them (3.3.17): the left operands, of which there is at least one in a tree of the
    /// grammar, and the last right one.
    Comma {
        lefts: Vec<Left>,
        right: Box<Expr>,
    },
}

/// A left operand of a comma, and the place of the comma (3.3.17).
#[cycle(expr)]
#[derive(Drop)]
pub struct Left {
    pub operand: Expr,
    pub at: Place,
}

/// The name of a type (3.5.5). Its declarator names nothing, and may be empty.
#[cycle(expr)]
#[derive(Drop)]
pub struct TypeName {
    pub specifiers: Vec<Specifier>,
    pub declarator: Declarator,
}

/// A declaration specifier (3.5.1 to 3.5.3). `at` is the place of `struct` or `enum`.
#[cycle(expr)]
#[derive(Drop)]
pub enum Specifier {
    Storage(Storage, Place),
    Dropped(Dropped, Place),
    Basic(Basic, Place),
    /// A typedef name.
    Named(Word),
    StructTag {
        at: Place,
        tag: Word,
    },
    /// A struct with its members, and the place of its `{`.
    Struct {
        at: Place,
        tag: Option<Word>,
        brace: Place,
        members: Vec<Member>,
    },
    EnumTag {
        at: Place,
        tag: Word,
    },
    /// An enumeration with its constants, and the place of its `{`; a comma may end the list.
    Enum {
        at: Place,
        tag: Option<Word>,
        brace: Place,
        constants: Vec<Constant>,
        comma: bool,
    },
}

/// Members that are declared together (3.5.2.1).
#[cycle(expr)]
#[derive(Drop)]
pub struct Member {
    pub specifiers: Vec<Specifier>,
    pub declarators: Vec<Declarator>,
}

/// An enumeration constant (3.5.2.2), with or without its value.
#[cycle(expr)]
#[derive(Drop)]
pub enum Constant {
    Plain(Word),
    Valued { name: Word, value: Box<Expr> },
}

/// A declarator (3.5.4), or one that names nothing (3.5.5). It is empty if nothing stands in it.
#[cycle(expr)]
#[derive(Drop)]
pub struct Declarator {
    pub pointers: Vec<Pointer>,
    pub direct: Direct,
}

/// What follows the pointers of a declarator.
#[cycle(expr)]
#[derive(Drop)]
pub enum Direct {
    /// Nothing, if a declarator names nothing.
    Empty,
    Name(Word),
    Parens(Box<Declarator>),
    /// An array without its length.
    Array(Box<Direct>),
    Sized {
        base: Box<Direct>,
        length: Box<Expr>,
    },
    Function {
        base: Box<Direct>,
        parameters: Vec<Parameter>,
    },
    /// A function of `(void)`; the place of the word.
    FunctionOfVoid {
        base: Box<Direct>,
        at: Place,
    },
}

/// A parameter (3.5.4.3). Its declarator may name nothing, and may be empty.
#[cycle(expr)]
#[derive(Drop)]
pub struct Parameter {
    pub specifiers: Vec<Specifier>,
    pub declarator: Declarator,
}
