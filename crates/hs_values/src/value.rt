//! A value of the machine.

ghost use Rattle.std.specs.Prelude.{◌≡◌, IfOk, Option};
ghost use Rattle.hs_heap.specs.declared.cell.Pointer.TheVariants as at;
ghost use Rattle.hs_meaning.specs.Numbers.{truth};
ghost use Rattle.hs_meaning.specs.Operations.{as_kind, convert_stop, converted_value};
ghost use Rattle.hs_meaning.specs.Roles.{state_in, state_stop};
ghost use Rattle.hs_meaning.specs.Values.{number, pointer, state, structure, bits_in, pointer_in, number_stop, pointer_stop};
ghost use Rattle.hs_values.specs.Answers.{or_stop};

use crate::Cells;
use hs_base::NoMemory;
use hs_heap::{Cell, Pointer, Spot};
use hs_meaning::Stop;
use hs_types::Integer;
use std::alloc::Global;
use std::marker::Model;

/// What a value is. A pointer into a block is written out, so that a value takes 24 bytes.
#[derive(Drop)]
pub(crate) enum Held {
    /// A number, as 32 bits.
    Number(u32),
    Nil,
    /// Into an object: its number, and bytes from its front.
    Fixed(u32, i64),
    Handle(u32),
    /// Into a block: its number, its life and its epoch as they were, and bytes from its front.
    Spot(u32, u32, u32, i64),
    /// A state byte of HGetState.
    State(u8),
    Struct(Box<Cells>),
}

/// The pointer into a block with these parts.
#[inline(always)]
fn spot(block: u32, life: u32, epoch: u32, offset: i64) -> Pointer
    ensures { result ≡ at.Spot (record { block = block; life = life; epoch = epoch; offset = offset }) }
{
    Pointer::Spot(Spot {
        block,
        life,
        epoch,
        offset,
    })
}

/// The number as a result of that type, or 0 if there is no result.
fn of_kind(kind: Option<Integer>, bits: u32) -> u32
    ensures { number result ≡ as_kind kind (number bits) }
{
    match kind {
        None => 0,
        Some(kind) => kind.converted(bits),
    }
}

/// A value of the machine: a number, a pointer, a state byte or the cells of a struct. Contracts see the value of the definitions.
#[derive(Drop)]
pub struct Value {
    pub(crate) held: Held,
}

const _: () = prove!(std::mem::size_of::<Value>() == 24);

impl Model for Value {
    ghost use Rattle.hs_meaning.specs.Values.{Value as meant};

    ghost Value = { meant };

    ghost use Rattle.hs_values.specs.Held.{value_of};

    ghost view = { λ it. value_of it.held };
}

impl Value {
    /// A number, by its 32 bits.
    #[inline(always)]
    pub fn number(bits: u32) -> Value
        ensures { result ≡ number bits }
    {
        Value {
            held: Held::Number(bits),
        }
    }

    /// A pointer.
    #[inline(always)]
    pub fn pointer(its: Pointer) -> Value
        ensures { result ≡ pointer its }
    {
        let held = match its {
            Pointer::Nil => Held::Nil,
            Pointer::Fixed(object, offset) => Held::Fixed(object, offset),
            Pointer::Handle(block) => Held::Handle(block),
            Pointer::Spot(its) => Held::Spot(its.block, its.life, its.epoch, its.offset),
        };
        Value { held }
    }

    /// A state byte of HGetState.
    pub fn state(byte: u8) -> Value
        ensures { result ≡ state byte }
    {
        Value {
            held: Held::State(byte),
        }
    }

    /// A struct with these cells.
    ///
    /// # Errors
    ///
    /// `NoMemory` if memory runs out.
    pub fn structure(alloc: Global, cells: Vec<Cell>) -> Result<Value, NoMemory>
        ensures { IfOk result (λ value. value ≡ structure cells.items) }
    {
        let cells = Box::new(alloc, Cells::from_vec(cells))?;
        Ok(Value {
            held: Held::Struct(cells),
        })
    }

    /// 1 or 0.
    pub fn truth(answer: bool) -> Value
        ensures { result ≡ number (truth answer) }
    {
        Value::number(u32::from(answer))
    }

    /// The same value once more.
    ///
    /// # Errors
    ///
    /// `NoMemory` if memory runs out. Only a struct takes memory.
    pub fn copied(&self, alloc: Global) -> Result<Value, NoMemory>
        ensures { IfOk result (λ value. value ≡ self.now) }
    {
        match &self.held {
            Held::Number(bits) => Ok(Value::number(*bits)),
            Held::State(byte) => Ok(Value::state(*byte)),
            Held::Struct(cells) => Value::structure(alloc, Vec::from_slice(alloc, cells.items())?),
            Held::Nil => Ok(Value::pointer(Pointer::Nil)),
            Held::Fixed(object, offset) => Ok(Value::pointer(Pointer::Fixed(*object, *offset))),
            Held::Handle(block) => Ok(Value::pointer(Pointer::Handle(*block))),
            Held::Spot(block, life, epoch, offset) => Ok(Value::pointer(spot(
                *block, *life, *epoch, *offset,
            ))),
        }
    }

    /// Ends the value. Only a struct has memory to free, which a caller sees at once where this stands in it.
    #[inline(always)]
    pub fn discard(self) {
        match self.held {
            Held::Struct(cells) => drop(cells),
            Held::Number(_)
            | Held::Nil
            | Held::Fixed(_, _)
            | Held::Handle(_)
            | Held::Spot(_, _, _, _)
            | Held::State(_) => (),
        }
    }

    /// The bits of the value, if it is used as a number.
    ///
    /// # Errors
    ///
    /// `BadByte` for a state byte, and `BadPointer` for what no typed program uses so.
    #[inline(always)]
    pub fn bits(&self) -> Result<u32, Stop>
        ensures { result ≡ or_stop (number_stop self.now) (bits_in self.now) }
    {
        match &self.held {
            Held::Number(bits) => Ok(*bits),
            Held::State(_) => Err(Stop::BadByte),
            Held::Nil
            | Held::Fixed(_, _)
            | Held::Handle(_)
            | Held::Spot(_, _, _, _)
            | Held::Struct(_) => Err(Stop::BadPointer),
        }
    }

    /// The pointer that the value is.
    ///
    /// # Errors
    ///
    /// `BadPointer` if the value is not a pointer. No typed program has such a value there.
    #[inline(always)]
    pub fn as_pointer(&self) -> Result<Pointer, Stop>
        ensures { result ≡ or_stop (pointer_stop self.now) (pointer_in self.now) }
    {
        match &self.held {
            Held::Nil => Ok(Pointer::Nil),
            Held::Fixed(object, offset) => Ok(Pointer::Fixed(*object, *offset)),
            Held::Handle(block) => Ok(Pointer::Handle(*block)),
            Held::Spot(block, life, epoch, offset) => Ok(spot(*block, *life, *epoch, *offset)),
            Held::Number(_) | Held::State(_) | Held::Struct(_) => Err(Stop::BadPointer),
        }
    }

    /// The state byte that the value is.
    ///
    /// # Errors
    ///
    /// `BadByte` for anything else.
    pub fn as_state(&self) -> Result<u8, Stop>
        ensures { result ≡ or_stop (state_stop self.now) (state_in self.now) }
    {
        match &self.held {
            Held::State(byte) => Ok(*byte),
            Held::Number(_)
            | Held::Nil
            | Held::Fixed(_, _)
            | Held::Handle(_)
            | Held::Spot(_, _, _, _)
            | Held::Struct(_) => Err(Stop::BadByte),
        }
    }

    /// The number as one of that type; a state byte stays as it is (X3.159-1989 3.2.1.2).
    ///
    /// # Errors
    ///
    /// `BadPointer` for what no typed program converts.
    pub fn converted(self, kind: Integer) -> Result<Value, Stop>
        ensures { result ≡ or_stop (convert_stop self) (converted_value kind self) }
    {
        match &self.held {
            Held::Number(bits) => Ok(Value::number(kind.converted(*bits))),
            Held::State(_) => Ok(self),
            Held::Nil
            | Held::Fixed(_, _)
            | Held::Handle(_)
            | Held::Spot(_, _, _, _)
            | Held::Struct(_) => Err(Stop::BadPointer),
        }
    }

    /// What a routine answers, as its result type has it: 0 if it gives nothing.
    pub fn as_kind(self, kind: Option<Integer>) -> Value
        ensures { result ≡ as_kind kind self }
    {
        match &self.held {
            Held::Number(bits) => Value::number(of_kind(kind, *bits)),
            Held::State(_)
            | Held::Nil
            | Held::Fixed(_, _)
            | Held::Handle(_)
            | Held::Spot(_, _, _, _)
            | Held::Struct(_) => self,
        }
    }
}
