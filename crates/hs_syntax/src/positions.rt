//! Where an expression or a statement is, for those that report it.

ghost use Rattle.std.specs.Prelude.{◌≡◌, map};
ghost use Rattle.hs_syntax.specs.Positions.{position_of, IsLastComma, first_of, first_of_specifier, first_of_specifiers, first_of_statement};
ghost use Rattle.hs_syntax.specs.RowViews.{view_left, lefts_from};
ghost use Rattle.hs_syntax.specs.Views.{view, view_specifier, specification_of, view_statement};

use crate::{Expr, Left, Specifier, Stmt};
use hs_tokens::Place;

/// The place of the last comma, if there is one.
fn last_comma(lefts: &[Left]) -> Option<Place>
    ensures { IsLastComma (lefts_from (map view_left lefts.now)) result }
{
    match lefts.split_last() {
        Some((left, _)) => Some(left.at),
        None => None,
    }
}

/// The place of a specifier's first token.
fn first_of_specifier(specifier: &Specifier) -> Place
    ensures { result ≡ first_of_specifier (view_specifier specifier.now) }
{
    match specifier {
        Specifier::Storage(_, at) | Specifier::Dropped(_, at) | Specifier::Basic(_, at) => *at,
        Specifier::Named(it) => it.place,
        Specifier::StructTag { at, .. }
        | Specifier::Struct { at, .. }
        | Specifier::EnumTag { at, .. }
        | Specifier::Enum { at, .. } => *at,
    }
}

/// Returns the place of the first specifier, if there is one.
///
/// Example: of `static int x;` it is the place of `static`.
pub fn first_of_specifiers(specifiers: &[Specifier]) -> Option<Place>
    ensures { result ≡ first_of_specifiers (specification_of specifiers.now) }
{
    match specifiers.split_first() {
        Some((first, _)) => Some(first_of_specifier(first)),
        None => None,
    }
}

impl Expr {
    /// Returns the position of the expression: the place of a name, of a constant or of the first string, and otherwise
    /// the place that the tree keeps for its operator. A call is at the position of what is called, an expression in
    /// parentheses at that of the inner one. Commas are at the last one, as they group to the left (X3.159-1989 3.3).
    ///
    /// Example: `a + b * c` is at its `+`, `(f)(x)` at its `f`, and `p->x` at its `->`.
    pub fn position(&self) -> Place
        ensures { result ≡ position_of (view self.now) }
    {
        let mut e = self;
        'inner: loop {
            match e {
                Expr::Name(it) | Expr::Number(it) | Expr::Character(it) | Expr::Strings(it, _) => {
                    return it.place;
                }
                Expr::Parens { inner, .. } => e = inner,
                Expr::Call { callee, .. } => e = callee,
                Expr::Comma { lefts, right } => match last_comma(lefts) {
                    Some(at) => return at,
                    None => e = right,
                },
                Expr::Index { at, .. }
                | Expr::Member { at, .. }
                | Expr::Postfix { at, .. }
                | Expr::Prefix { at, .. }
                | Expr::SizeofValue { at, .. }
                | Expr::SizeofType { at, .. }
                | Expr::Cast { at, .. }
                | Expr::Binary { at, .. }
                | Expr::Conditional { at, .. }
                | Expr::Assign { at, .. } => return *at,
            }
        }
    }

    /// Returns the place of the first token of the expression.
    ///
    /// Example: of `a + b * c` it is the place of `a`, and of `(f)(x)` that of its first parenthesis.
    pub fn first(&self) -> Place
        ensures { result ≡ first_of (view self.now) }
    {
        let mut e = self;
        'leftmost: loop {
            match e {
                Expr::Name(it) | Expr::Number(it) | Expr::Character(it) | Expr::Strings(it, _) => {
                    return it.place;
                }
                Expr::Index { base, .. } | Expr::Member { base, .. } => e = base,
                Expr::Call { callee, .. } => e = callee,
                Expr::Postfix { operand, .. } => e = operand,
                Expr::Binary { left, .. } => e = left,
                Expr::Conditional { test, .. } => e = test,
                Expr::Assign { target, .. } => e = target,
                Expr::Comma { lefts, right } => match lefts.split_first() {
                    Some((left, _)) => e = &left.operand,
                    None => e = right,
                },
                Expr::Parens { at, .. }
                | Expr::Prefix { at, .. }
                | Expr::SizeofValue { at, .. }
                | Expr::SizeofType { at, .. }
                | Expr::Cast { at, .. } => return *at,
            }
        }
    }
}

impl Stmt {
    /// Returns the place of the first token of the statement.
    ///
    /// Example: of `if (a) b;` it is the place of `if`, and of `a = 1;` that of `a`.
    pub fn first(&self) -> Place
        ensures { result ≡ first_of_statement (view_statement self.now) }
    {
        match self {
            Stmt::Block(it) => it.opening,
            Stmt::Expr(e) => e.first(),
            Stmt::Empty(at) | Stmt::Break(at) | Stmt::Continue(at) => *at,
            Stmt::If { at, .. }
            | Stmt::IfElse { at, .. }
            | Stmt::While { at, .. }
            | Stmt::Do { at, .. }
            | Stmt::For { at, .. }
            | Stmt::Switch { at, .. }
            | Stmt::Return { at, .. } => *at,
        }
    }
}
