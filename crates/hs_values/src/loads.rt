//! What cells hold.

ghost use Rattle.std.specs.Prelude.{◌≡◌, ◌<◌, ◌∷◌, [], IfSome, Some, if◌then◌else◌, length, option_map};
ghost use Rattle.std.specs.List.{list_any};
ghost use Rattle.hs_code_run.specs.Steps.{access_of};
ghost use Rattle.hs_meaning.specs.Values.{byte_in, is_byte, is_undefined, is_zero, joined, length_of, load_stops, number, number_in, of_number, of_pointer, part_in, pointer_at, value_in};
ghost use Rattle.hs_types.specs.Integers.{integer_size};
ghost use Rattle.hs_values.specs.Answers.{Halts, or_first};

use crate::pointers::are_one;
use crate::{Halt, Value};
use hs_code::Access;
use hs_heap::{Cell, Pointer, Spot};
use hs_meaning::Stop;
use hs_types::Integer;
use std::alloc::Global;

/// The value that cells hold.
///
/// # Errors
///
/// `Undefined` if a cell of a number or a pointer has no value, and `BadLoad` if they hold something of another sort: a part of a pointer that
/// was stored through another class, or parts that are not those of one pointer in their order. `NoMemory` only for a struct.
#[inline(always)]
pub fn loaded(alloc: Global, access: Access, cells: &[Cell]) -> Result<Value, Halt>
    requires all { length cells.now ≡ length_of (access_of access) }
    ensures { Halts (or_first (load_stops (access_of access) cells.now) (value_in (access_of access) cells.now)) result }
{
    match access {
        Access::Number(kind) => Ok(number(kind, cells)?),
        Access::Pointer(class) => Ok(pointer(class, cells)?),
        Access::Struct(_) => Ok(Value::structure(alloc, Vec::from_slice(alloc, cells)?)?),
    }
}

/// Whether one of the cells has no value.
#[inline(always)]
fn has_undefined(cells: &[Cell]) -> bool
    ensures { result ≡ list_any is_undefined cells.now }
{
    cells.iter().any(|cell| matches!(cell, Cell::Undefined))
}

/// The byte that a cell holds.
#[inline(always)]
fn byte(cell: &Cell) -> Option<u32>
    ensures value { result ≡ (if is_byte cell.now then Some (byte_in cell.now) else None) }
    ensures small { IfSome result (λ its. its < 256) }
{
    match cell {
        Cell::Byte(byte) => Some(u32::from(*byte)),
        Cell::Undefined | Cell::State(_) | Cell::Part(_, _, _) => None,
    }
}

/// A number or a state byte in one cell.
#[inline(always)]
fn in_one(kind: Integer, cell: &Cell) -> Option<Value>
    ensures { result ≡ number_in kind (cell.now ∷ []) }
{
    match cell {
        Cell::State(byte) => Some(Value::state(*byte)),
        Cell::Byte(byte) => Some(Value::number(kind.converted(u32::from(*byte)))),
        Cell::Undefined | Cell::Part(_, _, _) => None,
    }
}

/// The bits of a number in one cell, if it is no state byte.
#[inline(always)]
fn bits_in_one(kind: Integer, cell: &Cell) -> Option<u32>
    ensures { IfSome result (λ bits. number_in kind (cell.now ∷ []) ≡ Some (number bits)) }
{
    Some(kind.converted(byte(cell)?))
}

/// The bits of a number in two cells.
#[inline(always)]
fn bits_in_two(kind: Integer, high: &Cell, low: &Cell) -> Option<u32>
    ensures { option_map number result ≡ number_in kind (high.now ∷ low.now ∷ []) }
{
    let bits = byte(high)? * 256 + byte(low)?;
    Some(kind.converted(bits))
}

/// The bits of a number in four cells.
#[inline(always)]
fn bits_in_four(kind: Integer, a: &Cell, b: &Cell, c: &Cell, d: &Cell) -> Option<u32>
    ensures { option_map number result ≡ number_in kind (a.now ∷ b.now ∷ c.now ∷ d.now ∷ []) }
{
    let bits = ((byte(a)? * 256 + byte(b)?) * 256 + byte(c)?) * 256 + byte(d)?;
    Some(kind.converted(bits))
}

/// The number that cells hold, if they hold one and no state byte.
#[inline(always)]
pub fn loaded_number(kind: Integer, cells: &[Cell]) -> Option<u32>
    ensures { IfSome result (λ bits. number_in kind cells.now ≡ Some (number bits)) }
{
    match cells {
        [cell] => bits_in_one(kind, cell),
        [high, low] => bits_in_two(kind, high, low),
        [a, b, c, d] => bits_in_four(kind, a, b, c, d),
        _ => None,
    }
}

/// The number or the state byte that the cells hold.
#[inline(always)]
fn held_number(kind: Integer, cells: &[Cell]) -> Option<Value>
    requires all { length cells.now ≡ integer_size kind }
    ensures { result ≡ number_in kind cells.now }
{
    match cells {
        [cell] => in_one(kind, cell),
        [high, low] => Some(Value::number(bits_in_two(kind, high, low)?)),
        [a, b, c, d] => Some(Value::number(bits_in_four(kind, a, b, c, d)?)),
        _ => None,
    }
}

/// A load of a number.
#[inline(always)]
fn number(kind: Integer, cells: &[Cell]) -> Result<Value, Stop>
    requires all { length cells.now ≡ integer_size kind }
    ensures { result ≡ or_first (load_stops (of_number kind) cells.now) (value_in (of_number kind) cells.now) }
{
    if has_undefined(cells) {
        return Err(Stop::Undefined);
    }
    held_number(kind, cells).ok_or(Stop::BadLoad)
}

/// The pointer of which the cell is that part, if it was stored through that class.
fn part(class: u32, place: u8, cell: &Cell) -> Option<Pointer>
    ensures { result ≡ part_in class place cell.now }
{
    match cell {
        Cell::Part(at, its, stored) if *at == place && *stored == class => Some(*its),
        Cell::Undefined | Cell::Byte(_) | Cell::State(_) | Cell::Part(_, _, _) => None,
    }
}

/// The one of two pointers that was read first, if they are equal but for their epochs.
fn joined(a: Pointer, b: Pointer) -> Option<Pointer>
    ensures { result ≡ joined (Some a) (Some b) }
{
    if !are_one(a, b) {
        return None;
    }
    match (a, b) {
        (Pointer::Spot(its), Pointer::Spot(other)) => Some(Pointer::Spot(Spot {
            epoch: its.epoch.min(other.epoch),
            ..its
        })),
        (Pointer::Nil | Pointer::Fixed(_, _) | Pointer::Handle(_) | Pointer::Spot(_), _) => Some(a),
    }
}

/// Whether the cell holds the byte 0.
fn is_zero(cell: &Cell) -> bool
    ensures { result ≡ is_zero cell.now }
{
    matches!(cell, Cell::Byte(0))
}

/// The pointer in four cells.
fn in_parts(class: u32, a: &Cell, b: &Cell, c: &Cell, d: &Cell) -> Option<Pointer>
    ensures { result ≡ pointer_at class (a.now ∷ b.now ∷ c.now ∷ d.now ∷ []) }
{
    if is_zero(a) && is_zero(b) && is_zero(c) && is_zero(d) {
        return Some(Pointer::Nil);
    }
    let two = joined(part(class, 0, a)?, part(class, 1, b)?)?;
    let three = joined(two, part(class, 2, c)?)?;
    joined(three, part(class, 3, d)?)
}

/// A load of a pointer.
fn pointer(class: u32, cells: &[Cell]) -> Result<Value, Stop>
    requires all { length cells.now ≡ 4 }
    ensures { result ≡ or_first (load_stops (of_pointer class) cells.now) (value_in (of_pointer class) cells.now) }
{
    if has_undefined(cells) {
        return Err(Stop::Undefined);
    }
    let [a, b, c, d] = cells else {
        return Err(Stop::BadLoad);
    };
    match in_parts(class, a, b, c, d) {
        Some(its) => Ok(Value::pointer(its)),
        None => Err(Stop::BadLoad),
    }
}
