//! Statements (X3.159-1989 3.6).

ghost use Rattle.std.specs.Prelude.{◌≡◌, ◌++◌, ◌∷◌, [], map, IfOk, OnOk};
ghost use Rattle.hs_linkage.specs.Works.{Works};
ghost use Rattle.hs_expressions.specs.Expressions.{first_place};
ghost use Rattle.hs_statements.specs.Statements.{with_declaration, declared_all, entered, without_scope, stated, blocked, block_inside, all_stated, body_of};
ghost use Rattle.hs_syntax.specs.StatementViews.{view_labelled as view_syntax, statements_from};
ghost use Rattle.hs_syntax.specs.Views.{view_declaration as view_decl, view_statement as view_stmt, view_block as view_compound};
ghost use Rattle.hs_tree.specs.RowLaws.{view_labelled, one_statement};
ghost use Rattle.hs_tree.specs.Views.{view_declaration, view_item, view_statement, view_block};

use crate::held::{boxed, with};
use crate::setting::Setting;
use hs_base::NoMemory;
use hs_branches::{
    Cases, all_labelled, condition, condition_if, returned, switched, valued, valued_if,
};
use hs_declarations::block_declaration;
use hs_linkage::Translator;
use hs_syntax::{Block as Compound, Decl, Labelled as Syntax, Stmt, first_of_specifiers};
use hs_tokens::Place;
use hs_tree::{Block, Declaration, Initialised, Label, Labelled, Statement};
use hs_typer::TypeError;
use hs_types::TypeId;
use std::alloc::Global;

/// The declarations with one more, unless it gives no variable a value.
fn with_declaration(
    done: Vec<Declaration>,
    at: Place,
    items: Vec<Initialised>,
) -> Result<Vec<Declaration>, NoMemory>
    ensures { IfOk result (λ its. map view_declaration its.items ≡ with_declaration (map view_declaration done.items) at (map view_item items.items)) }
{
    if items.is_empty() {
        return Ok(done);
    }
    with(done, Declaration { at, items })
}

/// The place of a declaration's first token, or the other one if it has no specifiers.
fn first_place(other: Place, it: &Decl) -> Place
    ensures { result ≡ first_place other (view_decl it.now).specifiers }
{
    match first_of_specifiers(&it.specifiers) {
        Some(first) => first,
        None => other,
    }
}

/// The declarations of a block that give variables their values.
fn declared_all(
    alloc: Global,
    m: &mut Translator,
    at: Place,
    its: &[Decl],
) -> Result<Vec<Declaration>, TypeError>
    ensures { Works (λ done. map view_declaration done.items) m.new (declared_all at [] (map view_decl its.now) m.old) result }
{
    let Ok(mut done) = Vec::with_capacity(alloc, its.len()) else {
        return Err(TypeError::NoMemory);
    };
    'its: for it in its {
        let items = block_declaration(alloc, m, at, it)?;
        done = with_declaration(done, first_place(at, it), items)?;
    }
    Ok(done)
}

/// Enters a scope.
fn enter(m: &mut Translator) -> Result<(), NoMemory>
    ensures { OnOk result (m.new ≡ entered m.old) }
{
    m.typer.names.enter()?;
    m.typer.tags.enter()?;
    Ok(())
}

/// Leaves a scope.
fn leave(m: &mut Translator)
    ensures { m.new ≡ without_scope m.old }
{
    m.typer.names.leave();
    m.typer.tags.leave();
}

/// A statement. What is refused first, in the order of the text, is refused.
#[cycle(stated)]
fn statement(
    alloc: Global,
    m: &mut Translator,
    at: Setting,
    it: &Stmt,
) -> Result<Box<Statement>, TypeError>
    ensures { Works (λ its. view_statement its.value) m.new (stated at (view_stmt it.now) m.old) result }
{
    match it {
        Stmt::Block(inner) => {
            let block = blocked(alloc, m, at, Cases::none(alloc), inner)?;
            Ok(boxed(alloc, Statement::Block(block))?)
        }
        Stmt::Expr(e) => {
            let value = valued(alloc, m, e)?;
            let at = e.first();
            Ok(boxed(alloc, Statement::Expression { at, value })?)
        }
        Stmt::Empty(place) => Ok(boxed(alloc, Statement::Empty(*place))?),
        Stmt::If {
            at: place,
            test,
            then,
        } => {
            let test = condition(alloc, m, *place, test)?;
            let then = statement(alloc, m, at, then)?;
            let at = *place;
            Ok(boxed(alloc, Statement::If { at, test, then })?)
        }
        Stmt::IfElse {
            at: place,
            test,
            then,
            otherwise,
        } => {
            let test = condition(alloc, m, *place, test)?;
            let then = statement(alloc, m, at, then)?;
            let otherwise = statement(alloc, m, at, otherwise)?;
            let at = *place;
            Ok(boxed(
                alloc,
                Statement::IfElse {
                    at,
                    test,
                    then,
                    otherwise,
                },
            )?)
        }
        Stmt::While {
            at: place,
            test,
            body,
        } => {
            let test = condition(alloc, m, *place, test)?;
            let body = statement(alloc, m, at.looping(), body)?;
            let at = *place;
            Ok(boxed(alloc, Statement::While { at, test, body })?)
        }
        Stmt::Do {
            at: place,
            body,
            test,
        } => {
            let body = statement(alloc, m, at.looping(), body)?;
            let test = condition(alloc, m, *place, test)?;
            let at = *place;
            Ok(boxed(alloc, Statement::Do { at, body, test })?)
        }
        Stmt::For {
            at: place,
            first,
            test,
            step,
            body,
        } => {
            let first = valued_if(alloc, m, first)?;
            let test = condition_if(alloc, m, *place, test)?;
            let step = valued_if(alloc, m, step)?;
            let body = statement(alloc, m, at.looping(), body)?;
            let at = *place;
            Ok(boxed(
                alloc,
                Statement::For {
                    at,
                    first,
                    test,
                    step,
                    body,
                },
            )?)
        }
        Stmt::Switch {
            at: place,
            value,
            body,
        } => {
            let value = switched(alloc, m, *place, value)?;
            let cases = Cases::of(alloc, &m.typer.types, value.head().type_id);
            let body = blocked(alloc, m, at.switching(), cases, body)?;
            let at = *place;
            Ok(boxed(alloc, Statement::Switch { at, value, body })?)
        }
        Stmt::Break(place) => {
            if !at.breaks {
                return Err(TypeError::Untyped(*place));
            }
            Ok(boxed(alloc, Statement::Break(*place))?)
        }
        Stmt::Continue(place) => {
            if !at.loops {
                return Err(TypeError::Untyped(*place));
            }
            Ok(boxed(alloc, Statement::Continue(*place))?)
        }
        Stmt::Return { at: place, value } => {
            let value = returned(alloc, m, *place, at.result, value)?;
            let at = *place;
            Ok(boxed(alloc, Statement::Return { at, value })?)
        }
    }
}

/// A block in a scope of its own.
#[cycle(stated)]
fn blocked(
    alloc: Global,
    m: &mut Translator,
    at: Setting,
    cases: Cases,
    it: &Compound,
) -> Result<Block, TypeError>
    ensures { Works view_block m.new (blocked at cases (view_compound it.now) m.old) result }
{
    enter(m)?;
    let block = block_inside(alloc, m, at, cases, it)?;
    leave(m);
    Ok(block)
}

/// A block in the scope that is there.
#[cycle(stated)]
#[tactic(auto, using(hs_tree::specs::RowLaws::block_seen))]
fn block_inside(
    alloc: Global,
    m: &mut Translator,
    at: Setting,
    cases: Cases,
    it: &Compound,
) -> Result<Block, TypeError>
    ensures { Works view_block m.new (block_inside at cases (view_compound it.now) m.old) result }
{
    let opening = it.opening;
    let closing = it.closing;
    let declarations = declared_all(alloc, m, opening, &it.declarations)?;
    let statements = all_stated(alloc, m, at, cases, &it.statements)?;
    Ok(Block {
        opening,
        declarations,
        statements,
        closing,
    })
}

/// The statements of a block, with their labels.
#[cycle(stated)]
fn all_stated(
    alloc: Global,
    m: &mut Translator,
    at: Setting,
    cases: Cases,
    its: &[Syntax],
) -> Result<Vec<Labelled>, TypeError>
    ensures { Works (λ done. map view_labelled done.items) m.new (all_stated at cases [] (statements_from (map view_syntax its.now)) m.old) result }
{
    let Ok(mut done) = Vec::with_capacity(alloc, its.len()) else {
        return Err(TypeError::NoMemory);
    };
    let mut left = cases;
    'its: for it in its {
        let (labels, next) = all_labelled(alloc, m, left, &it.labels)?;
        left = next;
        let statement = statement(alloc, m, at, &it.statement)?;
        done = with_statement(done, labels, statement)?;
    }
    Ok(done)
}

/// The list with one statement more.
fn with_statement(
    done: Vec<Labelled>,
    labels: Vec<Label>,
    statement: Box<Statement>,
) -> Result<Vec<Labelled>, NoMemory>
    ensures { IfOk result (λ its. map view_labelled its.items ≡ map view_labelled done.items ++ one_statement labels.items (view_statement statement.value) ∷ []) }
{
    let statement = Box::into_inner(statement);
    with(done, Labelled { labels, statement })
}

/// The body of a function that returns that type. Its parameters are declared in the scope that is there.
///
/// Example: `{ return 1; }` of a function that returns `int` is a block with one statement.
pub fn body(
    alloc: Global,
    m: &mut Translator,
    id: TypeId,
    it: &Compound,
) -> Result<Block, TypeError>
    ensures { Works view_block m.new (body_of id (view_compound it.now) m.old) result }
{
    block_inside(alloc, m, Setting::in_function(id), Cases::none(alloc), it)
}
