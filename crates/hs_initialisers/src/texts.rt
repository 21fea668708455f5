//! Arrays of characters that string literals initialise (X3.159-1989 3.5.7).

ghost use Rattle.std.specs.Prelude.{◌≡◌, IfOk, map, option_map, option_copied};
ghost use Rattle.hs_typer.specs.Steps.{Gives};
ghost use Rattle.hs_aggregates.specs.Aggregates.{text_kind};
ghost use Rattle.hs_initialisers.specs.Initialisers.{characters, that_fit, text_by, text_of, is_string, lone_string};
ghost use Rattle.hs_syntax.specs.StatementViews.{initialisers_from};
ghost use Rattle.hs_syntax.specs.Views.{view, view_initialiser};
ghost use Rattle.hs_tree.specs.Kinds.{element};

use hs_aggregates::{Subobject, after, array_length, text_kind};
use hs_base::NoMemory;
use hs_expressions::string_bytes;
use hs_operand_types::element;
use hs_syntax::{Expr, Initialiser, Word};
use hs_tree::{Constant, Part};
use hs_typer::TypeError;
use hs_types::{Integer, TypeId, Types};
use std::alloc::Global;

/// The bytes of a string, one character each.
fn characters(
    alloc: Global,
    kind: Integer,
    id: TypeId,
    offset: u32,
    bytes: &[u8],
) -> Result<Vec<Part>, NoMemory>
    ensures { IfOk result (λ its. its.items ≡ characters kind id offset bytes.now) }
{
    let mut its = Vec::new(alloc);
    let mut at = offset;
    'bytes: for byte in bytes {
        let bits = kind.converted(u32::from(*byte));
        its.push(Part {
            offset: at,
            type_id: id,
            field: None,
            value: Constant::Number(bits),
        })?;
        at = after(at)?;
    }
    Ok(its)
}

/// The bytes that there is room for: all of them, or all but the last one, which is 0.
fn that_fit(room: Option<u32>, bytes: &[u8]) -> Option<&[u8]>
    ensures { option_map (λ its. its.now) result ≡ that_fit room bytes.now }
{
    let Some(most) = room else {
        return Some(bytes);
    };
    let most = most as usize;
    if bytes.len() <= most {
        return Some(bytes);
    }
    if bytes.len() != most + 1 {
        return None;
    }
    let (front, _) = bytes.split_at(most);
    Some(front)
}

/// The characters of an array, as a string literal and its neighbours give them.
fn text_by(
    alloc: Global,
    types: &Types,
    it: Subobject,
    first: &Word,
    others: &[Word],
) -> Result<Vec<Part>, TypeError>
    ensures { Gives (λ its. its.items) (text_by types.now it first.now others.now (text_kind types.now it.type_id) (element types.now it.type_id)) result }
{
    let Some(kind) = text_kind(types, it.type_id) else {
        return Err(TypeError::Untyped(first.place));
    };
    let Some(id) = element(types, it.type_id) else {
        return Err(TypeError::Untyped(first.place));
    };
    let Some(bytes) = string_bytes(alloc, first, others)? else {
        return Err(TypeError::Untyped(first.place));
    };
    let Some(fitting) = that_fit(array_length(types, it.type_id), bytes.items()) else {
        return Err(TypeError::Untyped(first.place));
    };
    Ok(characters(alloc, kind, id, it.offset, fitting)?)
}

/// The characters of an array that a string literal initialises.
pub(crate) fn text_of(
    alloc: Global,
    types: &Types,
    it: Subobject,
    e: &Expr,
) -> Result<Vec<Part>, TypeError>
    ensures { Gives (λ its. its.items) (text_of it (view e.now) types.now) result }
{
    match e {
        Expr::Strings(first, others) => text_by(alloc, types, it, first, others),
        Expr::Name(_)
        | Expr::Number(_)
        | Expr::Character(_)
        | Expr::Parens { .. }
        | Expr::Index { .. }
        | Expr::Call { .. }
        | Expr::Member { .. }
        | Expr::Postfix { .. }
        | Expr::Prefix { .. }
        | Expr::SizeofValue { .. }
        | Expr::SizeofType { .. }
        | Expr::Cast { .. }
        | Expr::Binary { .. }
        | Expr::Conditional { .. }
        | Expr::Assign { .. }
        | Expr::Comma { .. } => Err(TypeError::Untyped(e.position())),
    }
}

/// Whether an expression is a string literal.
pub(crate) fn is_string(e: &Expr) -> bool
    ensures { result ≡ is_string (view e.now) }
{
    match e {
        Expr::Strings(_, _) => true,
        Expr::Name(_)
        | Expr::Number(_)
        | Expr::Character(_)
        | Expr::Parens { .. }
        | Expr::Index { .. }
        | Expr::Call { .. }
        | Expr::Member { .. }
        | Expr::Postfix { .. }
        | Expr::Prefix { .. }
        | Expr::SizeofValue { .. }
        | Expr::SizeofType { .. }
        | Expr::Cast { .. }
        | Expr::Binary { .. }
        | Expr::Conditional { .. }
        | Expr::Assign { .. }
        | Expr::Comma { .. } => false,
    }
}

/// The string literal that a list consists of, if it is a list of one.
pub(crate) fn lone_string(its: &[Initialiser]) -> Option<&Expr>
    ensures { option_map view (option_copied result) ≡ lone_string (initialisers_from (map view_initialiser its.now)) }
{
    let Some((first, rest)) = its.split_first() else {
        return None;
    };
    match first {
        Initialiser::Value(e) => match rest.split_first() {
            Some(_) => None,
            None => { if is_string(e) { Some(e) } else { None } }
        },
        Initialiser::List { .. } => None,
    }
}
