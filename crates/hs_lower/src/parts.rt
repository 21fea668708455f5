//! Single operations, values, and the parts of branches and loops that stand around their statements.

ghost use Rattle.std.specs.Prelude.{◌≡◌, ◌<◌, suc, [], ◌∷◌, length, OnOk};
ghost use Rattle.hs_lower_expressions.specs.Emits.{most_ops};
ghost use Rattle.hs_lower.specs.Places.{setting_here, function_here};
ghost use Rattle.hs_lower.specs.Writing.{Done, fitting, with_ops, put_steps, given_steps, return_steps};
ghost use Rattle.hs_lowering.specs.Statements.{placed_at};
ghost use Rattle.hs_tree.specs.Views.{view_right};
ghost use Rattle.hs_types.specs.TypeTables.{size_of};

use crate::lowering::Lowering;
use crate::text::Text;
use hs_base::Pos;
use hs_code::{Access, Op, Placed};
use hs_lower_expressions::{EmitEnd, expression};
use hs_tree::Rvalue;
use hs_types::{Row, TypeId, Types};

/// Puts an operation, with so many values on the stack before it.
fn put_at(text: &mut Text, piece: u32, at: Pos, op: Op, places: u32) -> Result<(), EmitEnd>
    ensures done { Done (fitting (with_ops (λ start. placed_at piece at op places ∷ []) text.old)) text.new result }
    ensures cases { text.new.cases ≡ text.old.cases }
    ensures one { OnOk result (length text.new.ops ≡ suc (length text.old.ops)) }
{
    text.ops.push(Placed {
        op,
        at,
        piece,
        places,
    })
}

/// Puts an operation with nothing on the stack.
#[tactic(auto, unfolding(crate::specs::Writing::put_steps))]
pub(crate) fn put(text: &mut Text, piece: u32, at: Pos, op: Op) -> Result<(), EmitEnd>
    ensures done { Done (put_steps piece at op text.old) text.new result }
    ensures cases { text.new.cases ≡ text.old.cases }
    ensures one { OnOk result (length text.new.ops ≡ suc (length text.old.ops)) }
{
    put_at(text, piece, at, op, 0)
}

/// Puts the code of a value with nothing else on the stack, and an operation on it.
#[tactic(auto, unfolding(crate::specs::Writing::given_steps))]
pub(crate) fn given(
    lowering: &Lowering,
    text: &mut Text,
    piece: u32,
    at: Pos,
    e: &Rvalue,
    op: Op,
) -> Result<(), EmitEnd>
    ensures done { Done (given_steps (setting_here lowering.now) (function_here lowering.now) piece at (view_right e.now) op text.old) text.new result }
    ensures grows { OnOk result (length text.old.ops < length text.new.ops) }
{
    let context = lowering.context(piece);
    expression(&context, &mut text.ops, e, 0)?;
    put_at(text, piece, at, op, 1)
}

/// The size of a type in bytes, or 0 if it is incomplete.
fn size_of(types: &Types, type_id: TypeId) -> u32
    ensures { result ≡ size_of types.now type_id }
{
    match types.layout(type_id) {
        Some(layout) => layout.size,
        None => 0,
    }
}

/// Puts the code of `return;`: the value that is missing, and the return. A struct has no such value, and the code stops.
#[tactic(auto, unfolding(crate::specs::Writing::return_steps, crate::specs::Places::setting_with))]
pub(crate) fn put_return(
    lowering: &Lowering,
    text: &mut Text,
    piece: u32,
    at: Pos,
) -> Result<(), EmitEnd>
    ensures done { Done (return_steps (setting_here lowering.now) (function_here lowering.now) piece at text.old) text.new result }
    ensures grows { OnOk result (length text.old.ops < length text.new.ops) }
{
    let types = &lowering.program.types;
    let result = lowering.function.result;
    match types.row(result) {
        Some(Row::Pointer(_)) => put_at(text, piece, at, Op::Nil, 0)?,
        Some(Row::Struct(_)) => {
            put_at(text, piece, at, Op::Nil, 0)?;
            put_at(
                text,
                piece,
                at,
                Op::Load(Access::Struct(size_of(types, result))),
                1,
            )?;
        }
        Some(
            Row::Void
            | Row::Integer(_)
            | Row::Enumeration(_)
            | Row::Array { .. }
            | Row::OpenArray(_)
            | Row::Function { .. },
        )
        | None => put_at(text, piece, at, Op::Num(0), 0)?,
    }
    put_at(text, piece, at, Op::Return, 1)
}
