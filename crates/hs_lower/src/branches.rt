//! The parts of branches and switches that stand around their statements.

ghost use Rattle.std.specs.Prelude.{◌≡◌, ◌≤◌, ◌<◌, ◌-◌, suc, [], ◌∷◌, ◌++◌, length, OnOk, IfOk};
ghost use Rattle.hs_lower.specs.Places.{setting_here, function_here};
ghost use Rattle.hs_lower.specs.Writing.{Done, replaced, if_begun, if_ended, if_else_ended, switch_begun, switch_ended};
ghost use Rattle.hs_lowering.specs.Statements.{placed_at, cases_in, default_in};
ghost use Rattle.hs_code.specs.declared.op.Op.TheVariants.{Zero};
ghost use Rattle.hs_tree.specs.Views.{view_right};

use crate::lowering::Lowering;
use crate::parts::{given, put};
use crate::text::{CaseList, Text};
use hs_base::{NoMemory, Pos};
use hs_code::{Case, Goal, Op, Placed};
use hs_lower_expressions::{EmitEnd, Exits};
use hs_tree::{Label, Rvalue};

/// A test that is written, or a choice: its piece, and the number of the operation whose target is not known yet.
#[derive(Clone, Copy)]
pub(crate) struct Test {
    pub piece: u32,
    pub number: u32,
}

/// Begins an `if`: the condition, and its test.
#[tactic(auto, unfolding(crate::specs::Writing::if_begun))]
pub(crate) fn begin_if(
    lowering: &Lowering,
    text: &mut Text,
    at: Pos,
    test: &Rvalue,
) -> Result<Test, EmitEnd>
    ensures done { Done (if_begun (setting_here lowering.now) (function_here lowering.now) at (view_right test.now) text.old) text.new result }
    ensures piece { IfOk result (λ test. test.piece ≡ text.old.pieces) }
    ensures number { IfOk result (λ test. test.number ≡ length text.new.ops - 1) }
    ensures grows { OnOk result (length text.old.ops < length text.new.ops) }
{
    let piece = text.piece()?;
    given(lowering, text, piece, at, test, Op::Zero(0))?;
    let number = text.ops.len() - 1;
    Ok(Test { piece, number })
}

/// Gives a test its target.
fn aim(text: &mut Text, at: Pos, test: Test, target: u32)
    requires there { test.number < length text.old.ops }
    ensures aimed { text.new ≡ replaced test.number (placed_at test.piece at (Zero target) 1) text.old }
    ensures long { length text.new.ops ≡ length text.old.ops }
{
    text.ops.set(
        test.number,
        Placed {
            op: Op::Zero(target),
            at,
            piece: test.piece,
            places: 1,
        },
    );
}

/// Ends an `if` without `else`.
#[tactic(auto, unfolding(crate::specs::Writing::if_ended))]
pub(crate) fn end_if(text: &mut Text, at: Pos, test: Test) -> Result<(), EmitEnd>
    requires there { test.number < length text.old.ops }
    ensures done { Done (if_ended at test.piece test.number text.old) text.new result }
    ensures keeps { OnOk result (length text.old.ops ≤ length text.new.ops) }
{
    let end = text.ops.len();
    let join = text.piece()?;
    put(text, join, at, Op::Mark)?;
    aim(text, at, test, end);
    Ok(())
}

/// Ends an `if` with `else`. `jump` is the number of the jump between its statements.
#[tactic(auto, unfolding(crate::specs::Writing::if_else_ended))]
pub(crate) fn end_if_else(text: &mut Text, at: Pos, test: Test, jump: u32) -> Result<(), EmitEnd>
    requires there { test.number < length text.old.ops }
    requires jumps { jump < length text.old.ops }
    ensures done { Done (if_else_ended at test.piece test.number jump text.old) text.new result }
    ensures keeps { OnOk result (length text.old.ops ≤ length text.new.ops) }
{
    let end = text.ops.len();
    let join = text.piece()?;
    put(text, join, at, Op::Mark)?;
    aim(text, at, test, jump + 1);
    text.ops.set(
        jump,
        Placed {
            op: Op::Jump(end),
            at,
            piece: join,
            places: 0,
        },
    );
    Ok(())
}

/// Begins a switch: the value, and the choice.
#[tactic(auto, unfolding(crate::specs::Writing::switch_begun))]
pub(crate) fn begin_switch(
    lowering: &Lowering,
    text: &mut Text,
    at: Pos,
    value: &Rvalue,
) -> Result<Test, EmitEnd>
    ensures done { Done (switch_begun (setting_here lowering.now) (function_here lowering.now) at (view_right value.now) text.old) text.new result }
    ensures piece { IfOk result (λ choice. choice.piece ≡ text.old.pieces) }
    ensures number { IfOk result (λ choice. choice.number ≡ length text.new.ops - 1) }
    ensures grows { OnOk result (length text.old.ops < length text.new.ops) }
{
    let piece = text.piece()?;
    let nowhere = Goal {
        first: 0,
        end: 0,
        default: 0,
    };
    given(lowering, text, piece, at, value, Op::Choose(nowhere))?;
    let number = text.ops.len() - 1;
    Ok(Test { piece, number })
}

/// Puts the cases of a switch at the end.
fn put_cases(cases: &mut CaseList, labels: &[(Label, u32)]) -> Result<(), NoMemory>
    ensures { OnOk result (cases.new ≡ cases.old ++ cases_in labels.now) }
{
    for (label, target) in labels {
        if let Label::Case { bits, .. } = *label {
            cases.push(Case {
                bits,
                target: *target,
            })?;
        }
    }
    Ok(())
}

/// The operation of the default, or that one.
fn default_of(labels: &[(Label, u32)], otherwise: u32) -> u32
    ensures { result ≡ default_in labels.now otherwise }
{
    for (label, target) in labels {
        if let Label::Default(_) = *label {
            return *target;
        }
    }
    otherwise
}

/// Ends a switch, of which these are the labels. `start` is its first operation.
#[tactic(auto, unfolding(crate::specs::Writing::switch_ended))]
pub(crate) fn end_switch(
    text: &mut Text,
    at: Pos,
    choice: Test,
    start: u32,
    labels: &[(Label, u32)],
) -> Result<(), EmitEnd>
    requires there { choice.number < length text.old.ops }
    requires begins { start ≤ length text.old.ops }
    ensures done { Done (switch_ended at choice.piece choice.number start labels.now text.old) text.new result }
    ensures keeps { OnOk result (length text.old.ops ≤ length text.new.ops) }
{
    let breaks = text.ops.len();
    let first = text.cases.len();
    let piece = text.piece()?;
    put(text, piece, at, Op::Mark)?;
    put_cases(&mut text.cases, labels)?;
    let goal = Goal {
        first,
        end: text.cases.len(),
        default: default_of(labels, breaks),
    };
    text.ops.set(
        choice.number,
        Placed {
            op: Op::Choose(goal),
            at,
            piece: choice.piece,
            places: 1,
        },
    );
    let Exits { continues, .. } = Exits::unknown();
    text.ops.aim(start, Exits { breaks, continues });
    Ok(())
}
