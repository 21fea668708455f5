//! The code of declarations, statements and blocks.

ghost use Rattle.std.specs.Prelude.{◌≡◌, ◌≤◌, ◌++◌, length, map, OnOk, IfOk};
ghost use Rattle.hs_lower_expressions.specs.Emits.{most_ops};
ghost use Rattle.hs_lower.specs.Places.{setting_here, function_here};
ghost use Rattle.hs_lower.specs.Writing.{Done, counts_of, unknown, label_pos, first_steps, items_steps, labels_steps, declarations_steps, statement_steps, block_steps, list_steps};
ghost use Rattle.hs_lowering.specs.Statements.{labels_at, block_code, list_code};
ghost use Rattle.hs_tree.specs.RowLaws.{statements_from, view_labelled};
ghost use Rattle.hs_tree.specs.Views.{view_item, view_declaration, view_statement, view_block};

use crate::branches::{begin_if, begin_switch, end_if, end_if_else, end_switch};
use crate::loops::{begin_do, begin_first, begin_for, begin_while, end_do, end_for, end_while};
use crate::lowering::Lowering;
use crate::parts::{given, put, put_return};
use crate::text::Text;
use hs_base::Pos;
use hs_code::Op;
use hs_lower_expressions::{EmitEnd, Exits};
use hs_lower_starts::first_value;
use hs_tree::{Block, Declaration, Initialised, Label, Labelled, Statement};
use std::alloc::Global;

/// Gives a variable its first value.
#[tactic(auto, unfolding(crate::specs::Writing::first_steps))]
fn start(
    alloc: Global,
    lowering: &Lowering,
    text: &mut Text,
    piece: u32,
    item: &Initialised,
) -> Result<(), EmitEnd>
    ensures done { Done (first_steps (setting_here lowering.now) (function_here lowering.now) piece (view_item item.now) text.old) text.new result }
    ensures keeps { OnOk result (length text.old.ops ≤ length text.new.ops) }
{
    let context = lowering.context(piece);
    first_value(alloc, &context, lowering.function, &mut text.ops, item)
}

/// Gives the variables of a declaration their first values.
fn items(
    alloc: Global,
    lowering: &Lowering,
    text: &mut Text,
    piece: u32,
    its: &[Initialised],
) -> Result<(), EmitEnd>
    ensures done { Done (items_steps (setting_here lowering.now) (function_here lowering.now) piece (map view_item its.now) text.old) text.new result }
    ensures keeps { OnOk result (length text.old.ops ≤ length text.new.ops) }
{
    for item in its {
        start(alloc, lowering, text, piece, item)?;
    }
    prove!(text.ops.len() <= 1_000_000);
    Ok(())
}

/// Puts the code of declarations, each a piece of its own.
fn declarations(
    alloc: Global,
    lowering: &Lowering,
    text: &mut Text,
    its: &[Declaration],
) -> Result<(), EmitEnd>
    ensures done { Done (declarations_steps (setting_here lowering.now) (function_here lowering.now) (map view_declaration its.now) text.old) text.new result }
    ensures keeps { OnOk result (length text.old.ops ≤ length text.new.ops) }
{
    for it in its {
        let piece = text.piece()?;
        items(alloc, lowering, text, piece, &it.items)?;
    }
    prove!(text.ops.len() <= 1_000_000);
    Ok(())
}

/// Where a label stands.
fn label_pos(label: &Label) -> Pos
    ensures { result ≡ label_pos label.now }
{
    match label {
        Label::Case { at, .. } | Label::Default(at) => at.pos,
    }
}

/// Puts a place for each label, and notes its number.
fn mark(text: &mut Text, labels: &mut Vec<(Label, u32)>, its: &[Label]) -> Result<(), EmitEnd>
    ensures done { Done (labels_steps its.now text.old) text.new result }
    ensures labels { OnOk result (labels.new.items ≡ labels.old.items ++ labels_at its.now (length text.old.ops)) }
    ensures keeps { OnOk result (length text.old.ops ≤ length text.new.ops) }
{
    for label in its {
        let number = text.ops.len();
        let piece = text.piece()?;
        put(text, piece, label_pos(label), Op::Mark)?;
        labels.push((*label, number))?;
    }
    prove!(text.ops.len() <= 1_000_000);
    Ok(())
}

/// Puts the code of a statement at the end. Jumps out of a loop around it go to the numbers of `Exits::unknown`.
#[cycle(written)]
#[tactic(auto, using(crate::proofs::Forms::statement_equations))]
fn statement(
    alloc: Global,
    lowering: &Lowering,
    text: &mut Text,
    it: &Statement,
) -> Result<(), EmitEnd>
    ensures done { Done (statement_steps (setting_here lowering.now) (function_here lowering.now) (view_statement it.now) text.old) text.new result }
    ensures keeps { OnOk result (length text.old.ops ≤ length text.new.ops) }
{
    match it {
        Statement::Block(inner) => {
            block(alloc, lowering, text, inner)?;
            Ok(())
        }
        Statement::Expression { at, value } => {
            let piece = text.piece()?;
            given(lowering, text, piece, at.pos, value, Op::Drop)
        }
        Statement::Empty(at) => {
            let piece = text.piece()?;
            put(text, piece, at.pos, Op::Mark)
        }
        Statement::If { at, test, then } => {
            let begun = begin_if(lowering, text, at.pos, test)?;
            statement(alloc, lowering, text, then)?;
            end_if(text, at.pos, begun)
        }
        Statement::IfElse {
            at,
            test,
            then,
            otherwise,
        } => {
            let begun = begin_if(lowering, text, at.pos, test)?;
            statement(alloc, lowering, text, then)?;
            let jump = text.ops.len();
            put(text, 0, at.pos, Op::Jump(0))?;
            statement(alloc, lowering, text, otherwise)?;
            end_if_else(text, at.pos, begun, jump)
        }
        Statement::While { at, test, body } => {
            let begun = begin_while(lowering, text, at.pos, test)?;
            statement(alloc, lowering, text, body)?;
            end_while(text, at.pos, begun)
        }
        Statement::Do { at, body, test } => {
            let begun = begin_do(text, at.pos)?;
            statement(alloc, lowering, text, body)?;
            end_do(lowering, text, at.pos, test, begun)
        }
        Statement::For {
            at,
            first,
            test,
            step,
            body,
        } => {
            begin_first(lowering, text, at.pos, first)?;
            let begun = begin_for(lowering, text, at.pos, test, step)?;
            statement(alloc, lowering, text, body)?;
            end_for(lowering, text, at.pos, step, begun)
        }
        Statement::Switch { at, value, body } => {
            let start = text.ops.len();
            let begun = begin_switch(lowering, text, at.pos, value)?;
            let labels = block(alloc, lowering, text, body)?;
            end_switch(text, at.pos, begun, start, &labels)
        }
        Statement::Break(at) => {
            let piece = text.piece()?;
            put(text, piece, at.pos, Op::Jump(Exits::unknown().breaks))
        }
        Statement::Continue(at) => {
            let piece = text.piece()?;
            put(text, piece, at.pos, Op::Jump(Exits::unknown().continues))
        }
        Statement::Return { at, value } => {
            let piece = text.piece()?;
            match value {
                Some(e) => given(lowering, text, piece, at.pos, e, Op::Return),
                None => put_return(lowering, text, piece, at.pos),
            }
        }
    }
}

/// Puts the code of a block at the end. Returns the labels of its own statements, each with its operation.
#[cycle(written)]
pub(crate) fn block(
    alloc: Global,
    lowering: &Lowering,
    text: &mut Text,
    it: &Block,
) -> Result<Vec<(Label, u32)>, EmitEnd>
    ensures done { Done (block_steps (setting_here lowering.now) (function_here lowering.now) (view_block it.now) text.old) text.new result }
    ensures labels { IfOk result (λ labels. labels.items
        ≡ (block_code (setting_here lowering.now) (function_here lowering.now) (view_block it.now) (counts_of text.old) unknown (length text.old.ops)).labels) }
    ensures keeps { OnOk result (length text.old.ops ≤ length text.new.ops) }
{
    let piece = text.piece()?;
    put(text, piece, it.opening.pos, Op::Mark)?;
    declarations(alloc, lowering, text, &it.declarations)?;
    let labels = list(alloc, lowering, text, &it.statements)?;
    let piece = text.piece()?;
    put(text, piece, it.closing.pos, Op::Mark)?;
    Ok(labels)
}

/// Puts the code of statements at the end, one after the other. Returns their labels.
#[cycle(written)]
fn list(
    alloc: Global,
    lowering: &Lowering,
    text: &mut Text,
    its: &[Labelled],
) -> Result<Vec<(Label, u32)>, EmitEnd>
    ensures done { Done (list_steps (setting_here lowering.now) (function_here lowering.now) (statements_from (map view_labelled its.now)) text.old) text.new result }
    ensures labels { IfOk result (λ labels. labels.items
        ≡ (list_code (setting_here lowering.now) (function_here lowering.now) (statements_from (map view_labelled its.now)) (counts_of text.old) unknown
        (length text.old.ops)).labels) }
    ensures keeps { OnOk result (length text.old.ops ≤ length text.new.ops) }
{
    let mut labels = Vec::new(alloc);
    for it in its {
        mark(text, &mut labels, &it.labels)?;
        statement(alloc, lowering, text, &it.statement)?;
    }
    prove!(text.ops.len() <= 1_000_000);
    Ok(labels)
}
