//! The cells that a value is stored as.

ghost use Rattle.std.specs.Prelude.{◌≡◌, ◌<◌, ◌/◌, ◌%◌, map, take};
ghost use Rattle.std.specs.Result.{result_map_both};
ghost use Rattle.hs_code_run.specs.Steps.{access_of};
ghost use Rattle.hs_heap.specs.declared.cell.Cell.TheVariants.{Byte};
ghost use Rattle.hs_meaning.specs.Values.{bytes_of, cells_for, of_number, of_struct, parts_of, store_stop};
ghost use Rattle.hs_types.specs.Integers.{integer_size};
ghost use Rattle.hs_values.specs.Answers.{or_stop};
ghost use Rattle.hs_values.specs.Parcels.{cells_in};

use crate::Value;
use crate::value::Held;
use hs_code::Access;
use hs_heap::{Cell, Pointer};
use hs_meaning::Stop;
use hs_types::Integer;

/// What is in a parcel after the cells of a number.
const REST: Cell = Cell::Undefined;

/// The cells that a value is stored as. They are made without memory.
#[derive(Drop)]
pub enum Parcel<'a> {
    /// So many of these are the cells of a number or a pointer.
    Few([Cell; 4], usize),
    /// The cells of a struct.
    Many(&'a [Cell]),
}

impl<'a> Parcel<'a> {
    /// What a store of the value leaves in memory.
    ///
    /// # Errors
    ///
    /// `BadByte` for a state byte that is stored in more than one byte, and `BadPointer` for what no typed program stores so.
    pub fn of(access: Access, value: &'a Value) -> Result<Parcel<'a>, Stop>
        ensures { result_map_both cells_in (λ why. why) result ≡ or_stop (store_stop (access_of access) value.now) (cells_for (access_of access) value.now) }
    {
        match access {
            Access::Number(kind) => number_parcel(kind, value),
            Access::Pointer(class) => Ok(pointer_parcel(class, value.as_pointer()?)),
            Access::Struct(size) => struct_parcel(size, value),
        }
    }

    /// Lends the cells.
    pub fn cells(&self) -> &[Cell]
        ensures { result.now ≡ cells_in self.now }
    {
        match self {
            Parcel::Few(cells, count) => front(cells, *count),
            Parcel::Many(cells) => cells,
        }
    }
}

/// So many cells from the front, or all if there are no more.
#[tactic(auto, using(std::proofs::lemmas::List::take_min))]
fn front(cells: &[Cell], count: usize) -> &[Cell]
    ensures { result.now ≡ take count cells.now }
{
    &cells[..count.min(cells.len())]
}

/// The byte of a number whose lowest bit is worth `unit`.
#[inline(always)]
pub fn byte_of(bits: u32, unit: u32) -> Cell
    requires { 0 < unit }
    ensures { result ≡ Byte (bits / unit % 256) }
{
    Cell::Byte((bits / unit % 256) as u8)
}

/// The low bytes of a number, the highest first.
fn bytes_parcel<'a>(kind: Integer, bits: u32) -> Parcel<'a>
    ensures { cells_in result ≡ map Byte (bytes_of (integer_size kind) bits) }
{
    let low = byte_of(bits, 1);
    match kind {
        Integer::Char | Integer::SignedChar | Integer::UnsignedChar => Parcel::Few(
            [low, REST, REST, REST],
            1,
        ),
        Integer::Short | Integer::UnsignedShort => Parcel::Few(
            [byte_of(bits, 256), low, REST, REST],
            2,
        ),
        Integer::Int | Integer::UnsignedInt | Integer::Long | Integer::UnsignedLong => Parcel::Few(
            [
                byte_of(bits, 16_777_216),
                byte_of(bits, 65_536),
                byte_of(bits, 256),
                low,
            ],
            4,
        ),
    }
}

/// The cells of a number or of a state byte.
fn number_parcel<'a>(kind: Integer, value: &Value) -> Result<Parcel<'a>, Stop>
    ensures { result_map_both cells_in (λ why. why) result ≡ or_stop (store_stop (of_number kind) value.now) (cells_for (of_number kind) value.now) }
{
    match &value.held {
        Held::Number(bits) => Ok(bytes_parcel(kind, *bits)),
        Held::State(byte) if kind.size() == 1 => Ok(Parcel::Few(
            [Cell::State(*byte), REST, REST, REST],
            1,
        )),
        Held::State(_) => Err(Stop::BadByte),
        Held::Nil
        | Held::Fixed(_, _)
        | Held::Handle(_)
        | Held::Spot(_, _, _, _)
        | Held::Struct(_) => Err(Stop::BadPointer),
    }
}

/// The four parts of a pointer.
fn pointer_parcel<'a>(class: u32, its: Pointer) -> Parcel<'a>
    ensures { cells_in result ≡ parts_of class its }
{
    Parcel::Few(
        [
            Cell::Part(0, its, class),
            Cell::Part(1, its, class),
            Cell::Part(2, its, class),
            Cell::Part(3, its, class),
        ],
        4,
    )
}

/// The cells of a struct.
fn struct_parcel(size: u32, value: &Value) -> Result<Parcel<'_>, Stop>
    ensures { result_map_both cells_in (λ why. why) result ≡ or_stop (store_stop (of_struct size) value.now) (cells_for (of_struct size) value.now) }
{
    match &value.held {
        Held::Struct(cells) => Ok(Parcel::Many(cells.items())),
        Held::Number(_)
        | Held::State(_)
        | Held::Nil
        | Held::Fixed(_, _)
        | Held::Handle(_)
        | Held::Spot(_, _, _, _) => Err(Stop::BadPointer),
    }
}
