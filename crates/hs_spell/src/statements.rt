//! Spells statements.

ghost use Rattle.std.specs.Prelude.{◌≡◌, List, ℕ, Bool, ◌∷◌, [], map, option_map};
ghost use Rattle.hs_spell.specs.Appends.{Appends};
ghost use Rattle.hs_syntax.specs.Grammar.{labels_form, optional_form, test_form, statement_form, block_form, statements_form};
ghost use Rattle.hs_syntax.specs.StatementViews.{view_labelled, statements_from};
ghost use Rattle.hs_syntax.specs.Views.{view, view_label, view_statement, view_block};

use crate::declarations::declarations;
use crate::expressions::expression;
use crate::pieces::{keyword, keyword_at, mark, mark_at};
use hs_base::NoMemory;
use hs_syntax::{Block, Expr, Label, Labelled, Stmt};
use hs_tokens::Token;
use std::alloc::Global;

/// Appends a label.
fn label(alloc: Global, tokens: &mut Vec<Token>, it: &Label) -> Result<(), NoMemory>
    ensures { (known : List (List ℕ)) → Appends result tokens.old.items tokens.new.items
        (labels_form known (view_label it.now ∷ [])) }
{
    match it {
        Label::Case { at, value } => {
            keyword_at(alloc, tokens, *at, "case")?;
            expression(alloc, tokens, value)?;
            mark(alloc, tokens, ":")
        }
        Label::Default(at) => {
            keyword_at(alloc, tokens, *at, "default")?;
            mark(alloc, tokens, ":")
        }
    }
}

/// Appends labels.
fn labels(alloc: Global, tokens: &mut Vec<Token>, its: &[Label]) -> Result<(), NoMemory>
    ensures { (known : List (List ℕ)) → Appends result tokens.old.items tokens.new.items
        (labels_form known (map view_label its.now)) }
{
    for it in its {
        label(alloc, tokens, it)?;
    }
    Ok(())
}

/// Appends an expression if there is one.
fn optional(alloc: Global, tokens: &mut Vec<Token>, it: &Option<Expr>) -> Result<(), NoMemory>
    ensures { (known : List (List ℕ)) → Appends result tokens.old.items tokens.new.items
        (optional_form known (option_map view it.now)) }
{
    match it {
        None => Ok(()),
        Some(e) => {
            expression(alloc, tokens, e)?;
            Ok(())
        }
    }
}

/// Appends an expression in the parentheses of a statement.
fn test(alloc: Global, tokens: &mut Vec<Token>, e: &Expr) -> Result<(), NoMemory>
    ensures { (known : List (List ℕ)) → Appends result tokens.old.items tokens.new.items
        (test_form known (view e.now)) }
{
    mark(alloc, tokens, "(")?;
    expression(alloc, tokens, e)?;
    mark(alloc, tokens, ")")
}

/// Appends a statement.
#[cycle(spell_statement)]
fn statement(alloc: Global, tokens: &mut Vec<Token>, it: &Stmt) -> Result<(), NoMemory>
    ensures { (known : List (List ℕ)) → Appends result tokens.old.items tokens.new.items
        (statement_form known (view_statement it.now)) }
{
    match it {
        Stmt::Block(inner) => {
            block(alloc, tokens, inner)?;
            Ok(())
        }
        Stmt::Expr(e) => {
            expression(alloc, tokens, e)?;
            mark(alloc, tokens, ";")
        }
        Stmt::Empty(at) => mark_at(alloc, tokens, *at, ";"),
        Stmt::If { at, test: e, then } => {
            keyword_at(alloc, tokens, *at, "if")?;
            test(alloc, tokens, e)?;
            statement(alloc, tokens, then)?;
            Ok(())
        }
        Stmt::IfElse {
            at,
            test: e,
            then,
            otherwise,
        } => {
            keyword_at(alloc, tokens, *at, "if")?;
            test(alloc, tokens, e)?;
            statement(alloc, tokens, then)?;
            keyword(alloc, tokens, "else")?;
            statement(alloc, tokens, otherwise)?;
            Ok(())
        }
        Stmt::While { at, test: e, body } => {
            keyword_at(alloc, tokens, *at, "while")?;
            test(alloc, tokens, e)?;
            statement(alloc, tokens, body)?;
            Ok(())
        }
        Stmt::Do { at, body, test: e } => {
            keyword_at(alloc, tokens, *at, "do")?;
            statement(alloc, tokens, body)?;
            keyword(alloc, tokens, "while")?;
            test(alloc, tokens, e)?;
            mark(alloc, tokens, ";")
        }
        Stmt::For {
            at,
            first,
            test: e,
            step,
            body,
        } => {
            keyword_at(alloc, tokens, *at, "for")?;
            mark(alloc, tokens, "(")?;
            optional(alloc, tokens, first)?;
            mark(alloc, tokens, ";")?;
            optional(alloc, tokens, e)?;
            mark(alloc, tokens, ";")?;
            optional(alloc, tokens, step)?;
            mark(alloc, tokens, ")")?;
            statement(alloc, tokens, body)?;
            Ok(())
        }
        Stmt::Switch { at, value, body } => {
            keyword_at(alloc, tokens, *at, "switch")?;
            test(alloc, tokens, value)?;
            block(alloc, tokens, body)?;
            Ok(())
        }
        Stmt::Break(at) => {
            keyword_at(alloc, tokens, *at, "break")?;
            mark(alloc, tokens, ";")
        }
        Stmt::Continue(at) => {
            keyword_at(alloc, tokens, *at, "continue")?;
            mark(alloc, tokens, ";")
        }
        Stmt::Return { at, value } => {
            keyword_at(alloc, tokens, *at, "return")?;
            optional(alloc, tokens, value)?;
            mark(alloc, tokens, ";")
        }
    }
}

/// Appends a compound statement.
#[cycle(spell_statement)]
pub(crate) fn block(alloc: Global, tokens: &mut Vec<Token>, it: &Block) -> Result<(), NoMemory>
    ensures { (known : List (List ℕ)) → Appends result tokens.old.items tokens.new.items
        (block_form known (view_block it.now)) }
{
    mark_at(alloc, tokens, it.opening, "{")?;
    declarations(alloc, tokens, &it.declarations)?;
    statements(alloc, tokens, &it.statements)?;
    mark_at(alloc, tokens, it.closing, "}")
}

/// Appends the statements of a block.
#[cycle(spell_statement)]
fn statements(alloc: Global, tokens: &mut Vec<Token>, its: &[Labelled]) -> Result<(), NoMemory>
    ensures { (known : List (List ℕ)) → Appends result tokens.old.items tokens.new.items
        (statements_form known (statements_from (map view_labelled its.now))) }
{
    for it in its {
        labels(alloc, tokens, &it.labels)?;
        statement(alloc, tokens, &it.statement)?;
    }
    Ok(())
}
