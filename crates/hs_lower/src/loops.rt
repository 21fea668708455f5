//! The parts of loops that stand around their bodies.

ghost use Rattle.std.specs.Prelude.{◌≡◌, ◌≤◌, ◌<◌, Some, option_map, length, OnOk, IfOk};
ghost use Rattle.hs_lower.specs.Places.{setting_here, function_here};
ghost use Rattle.hs_lower.specs.Writing.{Done, counts_of, with_pieces, piece_or, first_part, dropped_steps, guarded_steps, while_begun, while_ended, do_begun, do_ended, for_begun, for_ended};
ghost use Rattle.hs_lowering.specs.Statements.{one_piece, piece_for};
ghost use Rattle.hs_tree.specs.Views.{view_right};

use crate::lowering::Lowering;
use crate::parts::{given, put};
use crate::text::Text;
use hs_base::Pos;
use hs_code::Op;
use hs_lower_expressions::{EmitEnd, Exits};
use hs_tree::Rvalue;

/// A loop that is being written: the piece of the join in front of it, its first operation, and the piece of its step, if it has one.
#[derive(Clone, Copy)]
pub(crate) struct Loop {
    pub join: u32,
    pub start: u32,
    pub step: u32,
}

/// Begins a `while`, up to its body.
#[tactic(auto, unfolding(crate::specs::Writing::while_begun))]
pub(crate) fn begin_while(
    lowering: &Lowering,
    text: &mut Text,
    at: Pos,
    test: &Rvalue,
) -> Result<Loop, EmitEnd>
    ensures done { Done (while_begun (setting_here lowering.now) (function_here lowering.now) at (view_right test.now) text.old) text.new result }
    ensures join { IfOk result (λ its. its.join ≡ text.old.pieces) }
    ensures start { IfOk result (λ its. its.start ≡ length text.old.ops) }
    ensures grows { OnOk result (length text.old.ops ≤ length text.new.ops) }
{
    let start = text.ops.len();
    let join = text.piece()?;
    let tested = text.piece()?;
    put(text, join, at, Op::Mark)?;
    given(
        lowering,
        text,
        tested,
        at,
        test,
        Op::Zero(Exits::unknown().breaks),
    )?;
    put(text, tested, at, Op::Turn)?;
    Ok(Loop {
        join,
        start,
        step: join,
    })
}

/// Ends a `while`, after its body.
#[tactic(auto, unfolding(crate::specs::Writing::while_ended))]
pub(crate) fn end_while(text: &mut Text, at: Pos, its: Loop) -> Result<(), EmitEnd>
    requires begins { its.start ≤ length text.old.ops }
    ensures done { Done (while_ended at its.join its.start text.old) text.new result }
    ensures keeps { OnOk result (length text.old.ops ≤ length text.new.ops) }
{
    let end = text.piece()?;
    put(text, its.join, at, Op::Jump(its.start))?;
    let breaks = text.ops.len();
    put(text, end, at, Op::Mark)?;
    let continues = its.start;
    text.ops.aim(its.start, Exits { breaks, continues });
    Ok(())
}

/// Begins a `do`, up to its body.
#[tactic(auto, unfolding(crate::specs::Writing::do_begun))]
pub(crate) fn begin_do(text: &mut Text, at: Pos) -> Result<Loop, EmitEnd>
    ensures done { Done (do_begun at text.old) text.new result }
    ensures join { IfOk result (λ its. its.join ≡ text.old.pieces) }
    ensures start { IfOk result (λ its. its.start ≡ length text.old.ops) }
    ensures grows { OnOk result (length text.old.ops ≤ length text.new.ops) }
{
    let start = text.ops.len();
    let join = text.piece()?;
    put(text, join, at, Op::Mark)?;
    put(text, join, at, Op::Turn)?;
    Ok(Loop {
        join,
        start,
        step: join,
    })
}

/// Ends a `do`, after its body: `continue` goes to the condition.
#[tactic(auto, unfolding(crate::specs::Writing::do_ended))]
pub(crate) fn end_do(
    lowering: &Lowering,
    text: &mut Text,
    at: Pos,
    test: &Rvalue,
    its: Loop,
) -> Result<(), EmitEnd>
    requires begins { its.start ≤ length text.old.ops }
    ensures done { Done (do_ended (setting_here lowering.now) (function_here lowering.now) at (view_right test.now) its.join its.start text.old) text.new result }
    ensures keeps { OnOk result (length text.old.ops ≤ length text.new.ops) }
{
    let condition = text.ops.len();
    let tested = text.piece()?;
    let end = text.piece()?;
    given(
        lowering,
        text,
        tested,
        at,
        test,
        Op::Zero(Exits::unknown().breaks),
    )?;
    put(text, its.join, at, Op::Jump(its.start))?;
    let breaks = text.ops.len();
    put(text, end, at, Op::Mark)?;
    let exits = Exits {
        breaks,
        continues: condition,
    };
    text.ops.aim(its.start, exits);
    Ok(())
}

/// Evaluates the first part or the step of a `for`, and drops its value.
fn evaluate(
    lowering: &Lowering,
    text: &mut Text,
    piece: u32,
    at: Pos,
    e: &Option<Box<Rvalue>>,
) -> Result<(), EmitEnd>
    ensures done { Done (dropped_steps (setting_here lowering.now) (function_here lowering.now) piece at (option_map (λ it. view_right it.value) e.now) text.old) text.new result }
    ensures keeps { OnOk result (length text.old.ops ≤ length text.new.ops) }
{
    match e {
        Some(e) => given(lowering, text, piece, at, e, Op::Drop),
        None => Ok(()),
    }
}

/// Tests the condition of a `for`, if it has one.
fn guard(
    lowering: &Lowering,
    text: &mut Text,
    piece: u32,
    at: Pos,
    test: &Option<Box<Rvalue>>,
) -> Result<(), EmitEnd>
    ensures done { Done (guarded_steps (setting_here lowering.now) (function_here lowering.now) piece at (option_map (λ it. view_right it.value) test.now) text.old) text.new result }
    ensures keeps { OnOk result (length text.old.ops ≤ length text.new.ops) }
{
    match test {
        Some(e) => given(
            lowering,
            text,
            piece,
            at,
            e,
            Op::Zero(Exits::unknown().breaks),
        ),
        None => Ok(()),
    }
}

/// The next piece, if there is something that takes one, and else that number.
fn piece_for(text: &mut Text, e: &Option<Box<Rvalue>>, otherwise: u32) -> Result<u32, EmitEnd>
    ensures done { Done (Some (with_pieces (piece_for (option_map (λ it. view_right it.value) e.now) (counts_of text.old)).pieces text.old)) text.new result }
    ensures number { IfOk result (λ piece. piece ≡ piece_or (option_map (λ it. view_right it.value) e.now) text.old.pieces otherwise) }
{
    match e {
        Some(_) => text.piece(),
        None => Ok(otherwise),
    }
}

/// Evaluates the first part of a `for`.
#[tactic(auto, unfolding(crate::specs::Writing::first_part))]
pub(crate) fn begin_first(
    lowering: &Lowering,
    text: &mut Text,
    at: Pos,
    first: &Option<Box<Rvalue>>,
) -> Result<(), EmitEnd>
    ensures done { Done (first_part (setting_here lowering.now) (function_here lowering.now) at (option_map (λ it. view_right it.value) first.now) text.old) text.new result }
    ensures keeps { OnOk result (length text.old.ops ≤ length text.new.ops) }
{
    let piece = piece_for(text, first, 0)?;
    evaluate(lowering, text, piece, at, first)
}

/// Begins a `for` after its first part, up to its body. The step takes its piece here, because it is before the body in
/// the text.
#[tactic(auto, unfolding(crate::specs::Writing::for_begun))]
pub(crate) fn begin_for(
    lowering: &Lowering,
    text: &mut Text,
    at: Pos,
    test: &Option<Box<Rvalue>>,
    step: &Option<Box<Rvalue>>,
) -> Result<Loop, EmitEnd>
    ensures done { Done (for_begun (setting_here lowering.now) (function_here lowering.now) at (option_map (λ it. view_right it.value) test.now)
        (option_map (λ it. view_right it.value) step.now) text.old) text.new result }
    ensures join { IfOk result (λ its. its.join ≡ text.old.pieces) }
    ensures start { IfOk result (λ its. its.start ≡ length text.old.ops) }
    ensures step { IfOk result (λ its. its.step ≡ (piece_for (option_map (λ it. view_right it.value) test.now) (one_piece (counts_of text.old))).pieces) }
    ensures grows { OnOk result (length text.old.ops ≤ length text.new.ops) }
{
    let start = text.ops.len();
    let join = text.piece()?;
    let tested = text.pieces;
    let turn = piece_for(text, test, join)?;
    let stepped = text.pieces;
    piece_for(text, step, join)?;
    put(text, join, at, Op::Mark)?;
    guard(lowering, text, tested, at, test)?;
    put(text, turn, at, Op::Turn)?;
    Ok(Loop {
        join,
        start,
        step: stepped,
    })
}

/// Ends a `for`, after its body: `continue` goes to the step.
#[tactic(auto, unfolding(crate::specs::Writing::for_ended))]
pub(crate) fn end_for(
    lowering: &Lowering,
    text: &mut Text,
    at: Pos,
    step: &Option<Box<Rvalue>>,
    its: Loop,
) -> Result<(), EmitEnd>
    requires begins { its.start ≤ length text.old.ops }
    ensures done { Done (for_ended (setting_here lowering.now) (function_here lowering.now) at (option_map (λ it. view_right it.value) step.now)
        its.step its.join its.start text.old) text.new result }
    ensures keeps { OnOk result (length text.old.ops ≤ length text.new.ops) }
{
    let continues = text.ops.len();
    let end = text.piece()?;
    evaluate(lowering, text, its.step, at, step)?;
    put(text, its.join, at, Op::Jump(its.start))?;
    let breaks = text.ops.len();
    put(text, end, at, Op::Mark)?;
    text.ops.aim(its.start, Exits { breaks, continues });
    Ok(())
}
