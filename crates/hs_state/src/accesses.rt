//! Loads and stores through pointers.

ghost use Rattle.std.specs.Result.{result_map_both};
ghost use Rattle.std.specs.Prelude.{◌≡◌, ◌↔◌, IsTrue, ℕ, IfSome, OnErr, length};
ghost use Rattle.hs_code_run.specs.Steps.{access_of};
ghost use Rattle.hs_heap.specs.Memory.{IsMade, block_at};
ghost use Rattle.hs_heap.specs.declared.cell.Pointer.TheVariants as at;
ghost use Rattle.hs_meaning.specs.Accesses.{cells_at, cells_loaded, loaded, master_in, stored, unless_stopped, use_stops, with_cells_at};
ghost use Rattle.hs_meaning.specs.Machine.{and_then, done};
ghost use Rattle.hs_meaning.specs.Stops.{stop_of};
ghost use Rattle.hs_meaning.specs.Values.{length_of, number, of_number, of_pointer, pointer};
ghost use Rattle.hs_types.specs.Integers.{integer_size};
ghost use Rattle.hs_values.specs.Answers.{or_first};
ghost use Rattle.hs_state.specs.Machines.{Does, Keeps, machine_of};

use crate::Machine;
use hs_code::Access;
use hs_heap::{Cell, HeapStop, Pointer, Spot};
use hs_meaning::Stop;
use hs_types::Integer;
use hs_values::{Halt, Parcel, Value, byte_of, loaded, loaded_number};

/// The stop of the machine for a stop of the heap.
pub fn stop_of(why: HeapStop) -> Stop
    ensures { result ≡ stop_of why }
{
    match why {
        HeapStop::Disposed => Stop::Disposed,
        HeapStop::Old => Stop::Old,
        HeapStop::Stale => Stop::Stale,
        HeapStop::Purged => Stop::Purged,
        HeapStop::Range => Stop::Range,
    }
}

/// How many cells a load or a store reaches.
#[inline(always)]
fn length_of(access: Access) -> usize
    ensures { result ≡ length_of (access_of access) }
{
    match access {
        Access::Number(kind) => kind.size() as usize,
        Access::Pointer(_) => 4,
        Access::Struct(size) => size as usize,
    }
}

impl Machine<'_> {
    /// Whether a block of that number was made.
    #[inline(always)]
    pub fn is_made(&self, block: u32) -> bool
        ensures { IsTrue result ↔ IsMade self.now.heap block }
    {
        1 <= block && block <= self.blocks
    }

    /// Loads a pointer through the handle of a block: its master pointer.
    #[inline(always)]
    fn load_master(&self, block: u32) -> Result<Value, Halt>
        ensures { Does (master_in block (machine_of self.now) (block_at self.now.heap.blocks block)) (machine_of self.now) result }
    {
        if !self.is_made(block) {
            return Err(Halt::Stopped(Stop::BadPointer));
        }
        match self.heap.master(block) {
            Ok(Some(spot)) => Ok(Value::pointer(Pointer::Spot(spot))),
            Ok(None) => Ok(Value::pointer(Pointer::Nil)),
            Err(why) => Err(Halt::Stopped(stop_of(why))),
        }
    }

    /// What the master pointer of a block is, if it has one and was not purged.
    #[inline(always)]
    pub fn master(&self, block: u32) -> Option<Pointer>
        ensures { IfSome result (λ its. (class : ℕ) → loaded (of_pointer class) (at.Handle block) (machine_of self.now) ≡ done (pointer its) (machine_of self.now)) }
    {
        if !self.is_made(block) {
            return None;
        }
        match self.heap.master(block) {
            Ok(Some(spot)) => Some(Pointer::Spot(spot)),
            Ok(None) | Err(_) => None,
        }
    }

    /// Lends the cells that a pointer into a block reaches.
    #[inline(always)]
    fn lend(&self, its: &Spot, count: usize) -> Result<&[Cell], Stop>
        ensures { result_map_both (λ its. its.now) (λ why. why) result ≡ or_first (use_stops (at.Spot its.now) count (machine_of self.now)) (cells_at (at.Spot its.now) count (machine_of self.now)) }
    {
        if !self.is_made(its.block) {
            return Err(Stop::BadPointer);
        }
        self.heap.lend(its, count).map_err(stop_of)
    }

    /// Loads through a pointer into a block.
    #[inline(always)]
    #[tactic(auto, using(crate::proofs::Loading::lent))]
    fn load_spot(&self, access: Access, its: &Spot) -> Result<Value, Halt>
        ensures { Does (cells_loaded (access_of access) (at.Spot its.now) (machine_of self.now)) (machine_of self.now) result }
    {
        match self.lend(its, length_of(access)) {
            Ok(cells) => loaded(self.alloc, access, cells),
            Err(why) => Err(Halt::Stopped(why)),
        }
    }

    /// Loads through a pointer into an object.
    #[tactic(auto, using(crate::proofs::Loading::lent))]
    fn load_fixed(&self, access: Access, object: u32, offset: i64) -> Result<Value, Halt>
        ensures { Does (cells_loaded (access_of access) (at.Fixed object offset) (machine_of self.now)) (machine_of self.now) result }
    {
        match self.objects.cells(object, offset, length_of(access)) {
            Ok(cells) => loaded(self.alloc, access, cells),
            Err(why) => Err(Halt::Stopped(why)),
        }
    }

    /// Loads what the pointer reaches.
    ///
    /// # Errors
    ///
    /// Why the pointer is not used, or what the cells do not hold, as `hs_meaning` says. `NoMemory` for a struct.
    #[inline(always)]
    pub fn load(&self, access: Access, its: Pointer) -> Result<Value, Halt>
        ensures { Does (loaded (access_of access) its (machine_of self.now)) (machine_of self.now) result }
    {
        match (its, access) {
            (Pointer::Nil, _) => Err(Halt::Stopped(Stop::Nil)),
            (Pointer::Handle(block), Access::Pointer(_)) => self.load_master(block),
            (Pointer::Handle(_), _) => Err(Halt::Stopped(Stop::BadLoad)),
            (Pointer::Fixed(object, at), _) => { self.load_fixed(access, object, at) }
            (Pointer::Spot(its), _) => self.load_spot(access, &its),
        }
    }

    /// The number that a block holds there, if it holds one and the pointer is used.
    #[inline(always)]
    fn number_in_block(&self, kind: Integer, its: &Spot) -> Option<u32>
        ensures { IfSome result (λ bits. cells_loaded (of_number kind) (at.Spot its.now) (machine_of self.now) ≡ done (number bits) (machine_of self.now)) }
    {
        match self.lend(its, kind.size() as usize) {
            Ok(cells) => loaded_number(kind, cells),
            Err(_) => None,
        }
    }

    /// The number that an object holds there, if it holds one and the pointer is used.
    #[inline(always)]
    fn number_in_object(&self, kind: Integer, object: u32, offset: i64) -> Option<u32>
        ensures { IfSome result (λ bits. cells_loaded (of_number kind) (at.Fixed object offset) (machine_of self.now) ≡ done (number bits) (machine_of self.now)) }
    {
        match self.objects.cells(object, offset, kind.size() as usize) {
            Ok(cells) => loaded_number(kind, cells),
            Err(_) => None,
        }
    }

    /// The number that a load through the pointer gives, if it gives one and no state byte, and does not stop.
    #[inline(always)]
    pub fn load_number(&self, kind: Integer, its: Pointer) -> Option<u32>
        ensures { IfSome result (λ bits. loaded (of_number kind) its (machine_of self.now) ≡ done (number bits) (machine_of self.now)) }
    {
        match its {
            Pointer::Fixed(object, at) => self.number_in_object(kind, object, at),
            Pointer::Spot(its) => self.number_in_block(kind, &its),
            Pointer::Nil | Pointer::Handle(_) => None,
        }
    }

    /// Puts cells where the pointer reaches.
    ///
    /// # Errors
    ///
    /// Why the pointer is not used. Nothing is changed then.
    #[inline(always)]
    pub fn write(&mut self, its: Pointer, cells: &[Cell]) -> Result<(), Halt>
        ensures does { Does (unless_stopped (use_stops its (length cells.now) (machine_of self.old)) tt (with_cells_at its cells.now (machine_of self.old)) (machine_of self.old)) (machine_of self.new) result }
        ensures keeps { Keeps self.old self.new }
        ensures kept { OnErr result (machine_of self.new ≡ machine_of self.old) }
    {
        match its {
            Pointer::Nil => Err(Halt::Stopped(Stop::Nil)),
            Pointer::Handle(_) => Err(Halt::Stopped(Stop::BadLoad)),
            Pointer::Fixed(object, at) => Ok(self.objects.store(object, at, cells)?),
            Pointer::Spot(its) => {
                if !self.is_made(its.block) {
                    return Err(Halt::Stopped(Stop::BadPointer));
                }
                match self.heap.store(&its, cells) {
                    Ok(()) => Ok(()),
                    Err(why) => Err(Halt::Stopped(stop_of(why))),
                }
            }
        }
    }

    /// Stores a number of one byte.
    #[inline(always)]
    fn put_byte(&mut self, kind: Integer, its: Pointer, bits: u32) -> Result<(), Halt>
        requires size { integer_size kind ≡ 1 }
        ensures does { Does (and_then (stored (of_number kind) its (number bits) (machine_of self.old)) (λ it after. done tt after)) (machine_of self.new) result }
        ensures keeps { Keeps self.old self.new }
        ensures kept { OnErr result (machine_of self.new ≡ machine_of self.old) }
    {
        self.write(its, &[byte_of(bits, 1)])
    }

    /// Stores a number of two bytes.
    #[inline(always)]
    fn put_two_bytes(&mut self, kind: Integer, its: Pointer, bits: u32) -> Result<(), Halt>
        requires size { integer_size kind ≡ 2 }
        ensures does { Does (and_then (stored (of_number kind) its (number bits) (machine_of self.old)) (λ it after. done tt after)) (machine_of self.new) result }
        ensures keeps { Keeps self.old self.new }
        ensures kept { OnErr result (machine_of self.new ≡ machine_of self.old) }
    {
        self.write(its, &[byte_of(bits, 256), byte_of(bits, 1)])
    }

    /// Stores a number of four bytes.
    #[inline(always)]
    fn put_four_bytes(&mut self, kind: Integer, its: Pointer, bits: u32) -> Result<(), Halt>
        requires size { integer_size kind ≡ 4 }
        ensures does { Does (and_then (stored (of_number kind) its (number bits) (machine_of self.old)) (λ it after. done tt after)) (machine_of self.new) result }
        ensures keeps { Keeps self.old self.new }
        ensures kept { OnErr result (machine_of self.new ≡ machine_of self.old) }
    {
        let cells = [
            byte_of(bits, 16_777_216),
            byte_of(bits, 65_536),
            byte_of(bits, 256),
            byte_of(bits, 1),
        ];
        self.write(its, &cells)
    }

    /// Stores a number where the pointer reaches, as `put` does.
    ///
    /// # Errors
    ///
    /// Why the pointer is not used. Nothing is changed then.
    #[inline(always)]
    pub fn put_number(&mut self, kind: Integer, its: Pointer, bits: u32) -> Result<(), Halt>
        ensures does { Does (and_then (stored (of_number kind) its (number bits) (machine_of self.old)) (λ it after. done tt after)) (machine_of self.new) result }
        ensures keeps { Keeps self.old self.new }
        ensures kept { OnErr result (machine_of self.new ≡ machine_of self.old) }
    {
        match kind {
            Integer::Char | Integer::SignedChar | Integer::UnsignedChar => self.put_byte(
                kind, its, bits,
            ),
            Integer::Short | Integer::UnsignedShort => self.put_two_bytes(kind, its, bits),
            Integer::Int | Integer::UnsignedInt | Integer::Long | Integer::UnsignedLong =>
                self.put_four_bytes(kind, its, bits),
        }
    }

    /// Stores a value where the pointer reaches. A struct with another number of cells than it is stored as, which no typed program has, is
    /// answered by `NoMemory`.
    ///
    /// # Errors
    ///
    /// Why the value or the pointer is not used so. Nothing is changed then.
    pub fn put(&mut self, access: Access, its: Pointer, value: &Value) -> Result<(), Halt>
        ensures does { Does (and_then (stored (access_of access) its value.now (machine_of self.old)) (λ it after. done tt after)) (machine_of self.new) result }
        ensures keeps { Keeps self.old self.new }
        ensures kept { OnErr result (machine_of self.new ≡ machine_of self.old) }
    {
        match Parcel::of(access, value) {
            Ok(parcel) => {
                let cells = parcel.cells();
                if cells.len() != length_of(access) {
                    return Err(Halt::NoMemory);
                }
                self.write(its, cells)
            }
            Err(why) => Err(Halt::Stopped(why)),
        }
    }
}
