//! Parses statements (X3.159-1989 3.6).

ghost use Rattle.std.specs.Prelude.{◌≡◌, ◌<◌, ◌≤◌, [], length, map, IfOk};
ghost use Rattle.hs_syntax.specs.StatementViews.{view_labelled};
ghost use Rattle.hs_syntax.specs.Views.{view, view_statement, view_block};
ghost use Rattle.hs_expr_parser.specs.Given.{Gives};
ghost use Rattle.hs_decl_parser.specs.Steps.{inner_at, block_at, if_at, else_at, while_at, do_at, for_at, switch_at, ended_at, return_at, ended_expression_at, statement_at, labelled_at, statements_at};

use crate::ahead::{keyword, keyword_ahead};
use crate::declarations::declarations;
use crate::labels::labels;
use crate::parts::{for_controls, optional, test};
use crate::words::{StatementWord, statement_word_of};
use hs_expr_parser::{
    ParseEnd, TypeNames, expression, first, is_mark_ahead, is_punctuator, mark, place_of,
};
use hs_syntax::{Block, Expr, Labelled, Stmt, with};
use hs_tokens::{Place, SourceToken};
use std::alloc::Global;

/// Reads a statement (X3.159-1989 3.6). An `else` is read with the nearest `if`.
///
/// `statement = block | [expression] ";" | if | while | do | for | switch | "break" ";" | "continue" ";" | return`
#[cycle(statement)]
#[tactic(auto, using(crate::proofs::Stepping::statement_nothing, crate::proofs::Stepping::statement_if, crate::proofs::Stepping::statement_while, crate::proofs::Stepping::statement_do, crate::proofs::Stepping::statement_for, crate::proofs::Stepping::statement_switch, crate::proofs::Stepping::statement_break, crate::proofs::Stepping::statement_continue, crate::proofs::Stepping::statement_return, crate::proofs::Stepping::statement_block, crate::proofs::Stepping::statement_empty, crate::proofs::Stepping::statement_expression))]
fn statement<'a>(
    alloc: Global,
    known: &TypeNames,
    tokens: &'a [SourceToken],
) -> Result<(Stmt, &'a [SourceToken]), ParseEnd>
    ensures read { Gives (λ x. (view_statement x.0, x.1.now)) result (statement_at known.now tokens.now) }
    ensures shorter { IfOk result (λ x. length x.1.now < length tokens.now) }
{
    let Some((source, rest)) = first(tokens) else {
        return Err(ParseEnd::NotExpr);
    };
    let at = place_of(source);
    match statement_word_of(source) {
        Some(StatementWord::If) => if_statement(alloc, known, at, rest),
        Some(StatementWord::While) => while_statement(alloc, known, at, rest),
        Some(StatementWord::Do) => do_statement(alloc, known, at, rest),
        Some(StatementWord::For) => for_statement(alloc, known, at, rest),
        Some(StatementWord::Switch) => switch_statement(alloc, known, at, rest),
        Some(StatementWord::Break) => ended(Stmt::Break(at), rest),
        Some(StatementWord::Continue) => ended(Stmt::Continue(at), rest),
        Some(StatementWord::Return) => return_statement(alloc, known, at, rest),
        None => {
            if is_punctuator(source, b"{") {
                let (block, left) = inner(alloc, known, at, rest)?;
                return Ok((Stmt::Block(block), left));
            }
            if is_punctuator(source, b";") {
                return Ok((Stmt::Empty(at), rest));
            }
            expression_statement(alloc, known, tokens)
        }
    }
}

/// Reads an expression and its semicolon (X3.159-1989 3.6.3).
///
/// `expression ";"`
#[tactic(auto, using(crate::proofs::Stepping::ended_expression_step))]
fn expression_statement<'a>(
    alloc: Global,
    known: &TypeNames,
    tokens: &'a [SourceToken],
) -> Result<(Stmt, &'a [SourceToken]), ParseEnd>
    ensures read { Gives (λ x. (view_statement x.0, x.1.now)) result (ended_expression_at known.now tokens.now) }
    ensures shorter { IfOk result (λ x. length x.1.now < length tokens.now) }
{
    let (e, end) = expression(alloc, known, tokens)?;
    let (e, (_, rest)) = with(e, mark(end, b";"))?;
    Ok((Stmt::Expr(e), rest))
}

/// Reads the semicolon of a statement that is a word alone (X3.159-1989 3.6.6).
///
/// `";"`
#[tactic(auto, using(crate::proofs::Stepping::ended_step))]
fn ended<'a>(it: Stmt, rest: &'a [SourceToken]) -> Result<(Stmt, &'a [SourceToken]), ParseEnd>
    ensures read { Gives (λ x. (view_statement x.0, x.1.now)) result (ended_at (view_statement it) rest.now) }
    ensures shorter { IfOk result (λ x. length x.1.now < length rest.now) }
{
    let (it, (_, left)) = with(it, mark(rest, b";"))?;
    Ok((it, left))
}

/// Reads a `return` after its word (X3.159-1989 3.6.6.4).
///
/// `return = "return" [expression] ";"`
#[tactic(auto, using(crate::proofs::Stepping::return_step))]
fn return_statement<'a>(
    alloc: Global,
    known: &TypeNames,
    at: Place,
    rest: &'a [SourceToken],
) -> Result<(Stmt, &'a [SourceToken]), ParseEnd>
    ensures read { Gives (λ x. (view_statement x.0, x.1.now)) result (return_at known.now at rest.now) }
    ensures shorter { IfOk result (λ x. length x.1.now < length rest.now) }
{
    let (value, left) = optional(alloc, known, rest, b";")?;
    Ok((Stmt::Return { at, value }, left))
}

/// Reads an `if` after its word, and its `else` if one follows (X3.159-1989 3.6.4.1).
///
/// `if = "if" "(" expression ")" statement [ "else" statement ]`
#[cycle(statement)]
#[tactic(auto, using(crate::proofs::Stepping::if_step, crate::proofs::Stepping::if_alone, crate::proofs::Stepping::if_otherwise))]
fn if_statement<'a>(
    alloc: Global,
    known: &TypeNames,
    at: Place,
    rest: &'a [SourceToken],
) -> Result<(Stmt, &'a [SourceToken]), ParseEnd>
    ensures read { Gives (λ x. (view_statement x.0, x.1.now)) result (if_at known.now at rest.now) }
    ensures shorter { IfOk result (λ x. length x.1.now < length rest.now) }
{
    let (test, behind) = test(alloc, known, rest)?;
    let (test, (then, left)) = with(test, boxed_statement(alloc, known, behind))?;
    match keyword_ahead(left, b"else") {
        Some((_, others)) => with_else(alloc, known, at, test, then, others),
        None => Ok((Stmt::If { at, test, then }, left)),
    }
}

/// Reads the statement after the `else` of an `if` (X3.159-1989 3.6.4.1).
///
/// `statement`
#[cycle(statement)]
#[tactic(auto, using(crate::proofs::Stepping::else_step))]
fn with_else<'a>(
    alloc: Global,
    known: &TypeNames,
    at: Place,
    test: Expr,
    then: Box<Stmt>,
    rest: &'a [SourceToken],
) -> Result<(Stmt, &'a [SourceToken]), ParseEnd>
    ensures read { Gives (λ x. (view_statement x.0, x.1.now)) result (else_at known.now at (view test) (view_statement then.value) rest.now) }
    ensures shorter { IfOk result (λ x. length x.1.now < length rest.now) }
{
    let ((test, then), (otherwise, left)) = with(
        (test, then),
        boxed_statement(alloc, known, rest),
    )?;
    Ok((
        Stmt::IfElse {
            at,
            test,
            then,
            otherwise,
        },
        left,
    ))
}

/// Reads a statement that another one holds, into a box: a function that holds a box pays little for the type of what is in it.
#[cycle(statement)]
fn boxed_statement<'a>(
    alloc: Global,
    known: &TypeNames,
    tokens: &'a [SourceToken],
) -> Result<(Box<Stmt>, &'a [SourceToken]), ParseEnd>
    ensures read { Gives (λ x. (view_statement x.0.value, x.1.now)) result (statement_at known.now tokens.now) }
    ensures shorter { IfOk result (λ x. length x.1.now < length tokens.now) }
{
    let (it, rest) = statement(alloc, known, tokens)?;
    Ok((Box::new(alloc, it)?, rest))
}

/// Reads a `while` after its word (X3.159-1989 3.6.5.1).
///
/// `while = "while" "(" expression ")" statement`
#[cycle(statement)]
#[tactic(auto, using(crate::proofs::Stepping::while_step))]
fn while_statement<'a>(
    alloc: Global,
    known: &TypeNames,
    at: Place,
    rest: &'a [SourceToken],
) -> Result<(Stmt, &'a [SourceToken]), ParseEnd>
    ensures read { Gives (λ x. (view_statement x.0, x.1.now)) result (while_at known.now at rest.now) }
    ensures shorter { IfOk result (λ x. length x.1.now < length rest.now) }
{
    let (test, behind) = test(alloc, known, rest)?;
    let (test, (body, left)) = with(test, boxed_statement(alloc, known, behind))?;
    Ok((Stmt::While { at, test, body }, left))
}

/// Reads a `do` after its word (X3.159-1989 3.6.5.2).
///
/// `do = "do" statement "while" "(" expression ")" ";"`
#[cycle(statement)]
#[tactic(auto, using(crate::proofs::Stepping::do_step))]
fn do_statement<'a>(
    alloc: Global,
    known: &TypeNames,
    at: Place,
    rest: &'a [SourceToken],
) -> Result<(Stmt, &'a [SourceToken]), ParseEnd>
    ensures read { Gives (λ x. (view_statement x.0, x.1.now)) result (do_at known.now at rest.now) }
    ensures shorter { IfOk result (λ x. length x.1.now < length rest.now) }
{
    let (body, behind) = boxed_statement(alloc, known, rest)?;
    let (body, (_, next)) = with(body, keyword(behind, b"while"))?;
    let (body, (test, end)) = with(body, test(alloc, known, next))?;
    let ((body, test), (_, left)) = with((body, test), mark(end, b";"))?;
    Ok((Stmt::Do { at, body, test }, left))
}

/// Reads a `for` after its word (X3.159-1989 3.6.5.3).
///
/// `for = "for" "(" [expression] ";" [expression] ";" [expression] ")" statement`
#[cycle(statement)]
#[tactic(auto, using(crate::proofs::Stepping::for_step))]
fn for_statement<'a>(
    alloc: Global,
    known: &TypeNames,
    at: Place,
    rest: &'a [SourceToken],
) -> Result<(Stmt, &'a [SourceToken]), ParseEnd>
    ensures read { Gives (λ x. (view_statement x.0, x.1.now)) result (for_at known.now at rest.now) }
    ensures shorter { IfOk result (λ x. length x.1.now < length rest.now) }
{
    let (controls, behind) = for_controls(alloc, known, rest)?;
    let (controls, (body, left)) = with(controls, boxed_statement(alloc, known, behind))?;
    Ok((
        Stmt::For {
            at,
            first: controls.first,
            test: controls.test,
            step: controls.step,
            body,
        },
        left,
    ))
}

/// Reads a `switch` after its word (X3.159-1989 3.6.4.2; own: its body is a block).
///
/// `switch = "switch" "(" expression ")" block`
#[cycle(statement)]
#[tactic(auto, using(crate::proofs::Stepping::switch_step))]
fn switch_statement<'a>(
    alloc: Global,
    known: &TypeNames,
    at: Place,
    rest: &'a [SourceToken],
) -> Result<(Stmt, &'a [SourceToken]), ParseEnd>
    ensures read { Gives (λ x. (view_statement x.0, x.1.now)) result (switch_at known.now at rest.now) }
    ensures shorter { IfOk result (λ x. length x.1.now < length rest.now) }
{
    let (value, behind) = test(alloc, known, rest)?;
    let (value, (body, left)) = with(value, block(alloc, known, behind))?;
    Ok((Stmt::Switch { at, value, body }, left))
}

/// Reads a compound statement (X3.159-1989 3.6.2).
///
/// `block = "{" { declaration } { labelled } "}"`
#[cycle(statement)]
#[tactic(auto, using(crate::proofs::Stepping::block_step))]
pub(crate) fn block<'a>(
    alloc: Global,
    known: &TypeNames,
    tokens: &'a [SourceToken],
) -> Result<(Block, &'a [SourceToken]), ParseEnd>
    ensures read { Gives (λ x. (view_block x.0, x.1.now)) result (block_at known.now tokens.now) }
    ensures shorter { IfOk result (λ x. length x.1.now < length tokens.now) }
{
    let (opening, rest) = mark(tokens, b"{")?;
    inner(alloc, known, opening, rest)
}

/// Reads a compound statement after its `{`, which stands there (X3.159-1989 3.6.2).
///
/// `{ declaration } { labelled } "}"`
#[cycle(statement)]
#[tactic(auto, using(crate::proofs::Stepping::inner_step, hs_syntax::specs::StatementLaws::block_seen))]
fn inner<'a>(
    alloc: Global,
    known: &TypeNames,
    opening: Place,
    rest: &'a [SourceToken],
) -> Result<(Block, &'a [SourceToken]), ParseEnd>
    ensures read { Gives (λ x. (view_block x.0, x.1.now)) result (inner_at known.now opening rest.now) }
    ensures shorter { IfOk result (λ x. length x.1.now < length rest.now) }
{
    let (declarations, behind) = declarations(alloc, known, rest)?;
    let (declarations, (statements, end)) = with(declarations, statements(alloc, known, behind))?;
    let ((declarations, statements), (closing, left)) = with(
        (declarations, statements),
        mark(end, b"}"),
    )?;
    Ok((
        Block {
            opening,
            declarations,
            statements,
            closing,
        },
        left,
    ))
}

/// Reads a statement with the labels in front of it (X3.159-1989 3.6.1).
///
/// `labelled = { label } statement`
#[cycle(statement)]
#[tactic(auto, using(crate::proofs::Stepping::labelled_step))]
fn labelled<'a>(
    alloc: Global,
    known: &TypeNames,
    tokens: &'a [SourceToken],
) -> Result<(Labelled, &'a [SourceToken]), ParseEnd>
    ensures read { Gives (λ x. (view_labelled x.0, x.1.now)) result (labelled_at known.now tokens.now) }
    ensures shorter { IfOk result (λ x. length x.1.now < length tokens.now) }
{
    let (labels, behind) = labels(alloc, known, tokens)?;
    let (labels, (statement, rest)) = with(labels, statement(alloc, known, behind))?;
    Ok((Labelled { labels, statement }, rest))
}

/// Reads the statements of a block, up to a `}` (X3.159-1989 3.6.2).
///
/// `{ labelled }`
#[cycle(statement)]
#[tactic(auto, using(crate::proofs::Stepping::statements_end))]
fn statements<'a>(
    alloc: Global,
    known: &TypeNames,
    tokens: &'a [SourceToken],
) -> Result<(Vec<Labelled>, &'a [SourceToken]), ParseEnd>
    ensures read { Gives (λ x. (map view_labelled x.0.items, x.1.now)) result (statements_at known.now [] tokens.now) }
    ensures shorter { IfOk result (λ x. length x.1.now ≤ length tokens.now) }
{
    let mut its = Vec::new(alloc);
    let mut rest = tokens;
    'statements: while !is_mark_ahead(rest, b"}") {
        let (it, left) = labelled(alloc, known, rest)?;
        its.push(it)?;
        rest = left;
    }
    Ok((its, rest))
}
