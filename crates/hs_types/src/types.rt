//! The table of types.

ghost use Rattle.std.specs.Prelude.{◌≡◌, [], ◌≤◌, ◌<◌, Some, None, IfOk, IfErr, OnOk, OnErr, IfSome, IsTrue, slice_get, length, option_copied};
ghost use Rattle.hs_types.specs.TypeTables.{basic_types, row_of, layout_of, is_complete, size_of, body_of, constants_of};
ghost use Rattle.hs_types.specs.TypeTables.{with_row, id_of, with_list, list_id_of, arrayed, completed, with_struct};
ghost use Rattle.hs_types.specs.TypeTables.{with_enumeration, enumerated, measured, awaits_body, FitsRow, IsBody, AreApart, AreInside, AreAligned, Grows};
ghost use Rattle.hs_types.specs.Layouts.{most_bytes};
ghost use Rattle.hs_types.specs.Rows.{basic_rows};
ghost use Rattle.hs_types.specs.Refusals.{IsRefusal, IsUnmeasured, no_memory};

use crate::body::Measured;
use crate::interned::Interned;
use crate::laying::laid_out;
use crate::{Body, Constants, Integer, Layout, ListId, Member, Parameters, Row, TypeId};
use hs_base::NoMemory;
use std::alloc::{AllocFailed, Global};
use std::marker::Model;

/// Why a type cannot be made.
#[derive(Clone, Copy, Debug, PartialEq, Eq)]
pub enum TypeEnd {
    /// An array of elements, or a struct with a member, of an incomplete type (X3.159-1989 3.5.2.1 and 3.5.4.2).
    Incomplete,
    /// A type of more than 16777216 bytes.
    TooLarge,
    /// A body for a struct or an enumeration that has one already (3.5.2.3), or for a number that names none.
    Redefined,
    /// Memory ran out.
    NoMemory,
}

impl From<NoMemory> for TypeEnd {
    ghost from_gives = { λ _ e. e ≡ no_memory };

    fn from(_refused: NoMemory) -> TypeEnd {
        TypeEnd::NoMemory
    }
}

impl<T: Drop> From<AllocFailed<T>> for TypeEnd {
    ghost from_gives = { λ _ e. e ≡ no_memory };

    fn from(_refused: AllocFailed<T>) -> TypeEnd {
        TypeEnd::NoMemory
    }
}

/// The types of a program: each once, found by hashing. The rows of `basic_rows` come first, with fixed numbers.
#[derive(Drop)]
pub struct Types {
    rows: Interned<Row>,
    lists: Interned<Parameters>,
    structs: Vec<Option<Body>>,
    enumerations: Vec<Option<Constants>>,
}

impl Model for Types {
    ghost use Rattle.hs_types.specs.TypeTables.{TypeTable, IsRight};

    ghost Value = { TypeTable };

    ghost view = { λ it. record { rows = it.rows; lists = it.lists; structs = it.structs.items; enumerations = it.enumerations.items } };

    ghost invariant = { λ it. IsRight (record { rows = it.rows; lists = it.lists; structs = it.structs.items; enumerations = it.enumerations.items }) };
}

/// Puts the basic types into a list that has none: `void`, the integer types, `char *` and `char **`. It only borrows the list, as a function
/// that owns it drops it at each of these twelve exits.
fn place_basic(rows: &mut Interned<Row>) -> Result<(), NoMemory>
    requires { rows.old ≡ [] }
    ensures { OnOk result (rows.new ≡ basic_rows) }
{
    rows.place(Row::Void)?;
    rows.place(Row::Integer(Integer::Char))?;
    rows.place(Row::Integer(Integer::SignedChar))?;
    rows.place(Row::Integer(Integer::UnsignedChar))?;
    rows.place(Row::Integer(Integer::Short))?;
    rows.place(Row::Integer(Integer::UnsignedShort))?;
    rows.place(Row::Integer(Integer::Int))?;
    rows.place(Row::Integer(Integer::UnsignedInt))?;
    rows.place(Row::Integer(Integer::Long))?;
    rows.place(Row::Integer(Integer::UnsignedLong))?;
    rows.place(Row::Pointer(TypeId::integer(Integer::Char)))?;
    rows.place(Row::Pointer(TypeId::char_pointer()))?;
    Ok(())
}

impl Types {
    ghost use Rattle.hs_types.specs.TypeTables.{IsRight};

    /// The table before any type of a program: it has `void`, the integer types, `char *` and `char **`. Fails if memory runs out.
    pub fn new(alloc: Global) -> Result<Types, NoMemory>
        ensures { IfOk result (λ types. types ≡ basic_types) }
    {
        let mut rows = Interned::new(alloc);
        place_basic(&mut rows)?;
        Ok(Types {
            rows,
            lists: Interned::new(alloc),
            structs: Vec::new(alloc),
            enumerations: Vec::new(alloc),
        })
    }

    /// Says what each table keeps: its first types are the basic ones, and what it knows of each type fits the others. It does nothing.
    pub fn is_right(&self)
        ensures { IsRight self.now }
    {
        let _ = &self.rows;
    }

    /// How many types there are. A type has no more types inside one another than that.
    pub fn len(&self) -> usize
        ensures { result ≡ length self.now.rows }
    {
        self.rows.len()
    }

    /// The type of that number, if there is one.
    pub fn row(&self, id: TypeId) -> Option<Row>
        ensures row { result ≡ row_of self.now id }
        ensures fits { IfSome result (FitsRow self.now) }
    {
        self.rows.entry(id.number)
    }

    /// The list of parameter types of that number, if there is one.
    pub fn parameters(&self, id: ListId) -> Option<Parameters>
        ensures { result ≡ slice_get self.now.lists id.number }
    {
        self.lists.entry(id.number)
    }

    /// The body of the struct of that number, or `None` if it has not come yet. Its fields lie one after the other.
    pub fn body(&self, number: u32) -> Option<&Body>
        ensures body { option_copied result ≡ body_of self.now number }
        ensures right { IfSome result (λ body. IsBody self.now body.now) }
        ensures apart { IfSome result (λ body. AreApart body.now.fields) }
        ensures inside { IfSome result (λ body. AreInside body.now.fields body.now.layout.size) }
        ensures aligned { IfSome result (λ body. AreAligned body.now.fields) }
    {
        let body = self.right_body(number)?;
        Some(body)
    }

    /// The body of the struct of that number.
    fn right_body(&self, number: u32) -> Option<&Body>
        ensures body { option_copied result ≡ body_of self.now number }
        ensures right { IfSome result (λ body. IsBody self.now body.now) }
    {
        self.structs.get(number as usize)?.as_ref()
    }

    /// The constants of the enumeration of that number, or `None` if they have not come yet.
    pub fn constants(&self, number: u32) -> Option<&Constants>
        ensures { option_copied result ≡ constants_of self.now number }
    {
        self.enumerations.get(number as usize)?.as_ref()
    }

    /// What an object of the type takes in memory, or `None` if the type is incomplete.
    pub fn layout(&self, id: TypeId) -> Option<Layout>
        ensures layout { result ≡ layout_of self.now id }
        ensures size { IfSome result (λ layout. layout.size ≤ most_bytes) }
    {
        match self.row(id)? {
            Row::Integer(kind) => Some(Layout::of_integer(kind)),
            Row::Pointer(_) => Some(Layout::word()),
            Row::Array { layout, .. } => Some(layout),
            Row::Struct(number) => Some(self.body(number)?.layout),
            Row::Enumeration(number) => {
                self.constants(number)?;
                Some(Layout::word())
            }
            Row::Void | Row::OpenArray(_) | Row::Function { .. } => None,
        }
    }

    /// The size of a complete type, in bytes.
    ///
    /// Example: 16 for an array of four elements of type `long`.
    pub fn size(&self, id: TypeId) -> u32
        requires { IsTrue (is_complete self.now id) }
        ensures size { result ≡ size_of self.now id }
        ensures most { result ≤ most_bytes }
    {
        match self.layout(id) {
            Some(layout) => layout.size,
            None => unreachable!(),
        }
    }

    /// The number of a type, which is added if it is not there yet. Fails if memory runs out.
    ///
    /// Example: the number of `char *` for `Row::Pointer(TypeId::integer(Integer::Char))`.
    pub fn add(&mut self, row: Row) -> Result<TypeId, NoMemory>
        requires { FitsRow self.old row }
        ensures id { IfOk result (λ id. id ≡ id_of row self.old) }
        ensures table { OnOk result (self.new ≡ with_row row self.old) }
        ensures grows { Grows self.old self.new }
        ensures unchanged { OnErr result (self.new ≡ self.old) }
    {
        let number = self.rows.place(row)?;
        Ok(TypeId { number })
    }

    /// The number of the type of an array of so many elements. Fails if the type of the elements is incomplete, if the array is
    /// larger than a type may be, or if memory runs out.
    pub fn array_of(&mut self, of: TypeId, length: u32) -> Result<TypeId, TypeEnd>
        ensures made { IfOk result (λ id. arrayed of length self.old ≡ Ok (id, self.new)) }
        ensures refused { IfErr result (IsRefusal (arrayed of length self.old)) }
        ensures grows { Grows self.old self.new }
        ensures unchanged { OnErr result (self.new ≡ self.old) }
    {
        let Some(element) = self.layout(of) else {
            return Err(TypeEnd::Incomplete);
        };
        let Some(layout) = element.array(length) else {
            return Err(TypeEnd::TooLarge);
        };
        Ok(self.add(Row::Array { of, length, layout })?)
    }

    /// The number of a list of parameter types, which is added if it is not there yet. Fails if memory runs out.
    pub fn add_parameters(&mut self, list: Parameters) -> Result<ListId, NoMemory>
        ensures id { IfOk result (λ id. id ≡ list_id_of list self.old) }
        ensures table { OnOk result (self.new ≡ with_list list self.old) }
        ensures grows { Grows self.old self.new }
        ensures unchanged { OnErr result (self.new ≡ self.old) }
    {
        let number = self.lists.place(list)?;
        Ok(ListId { number })
    }

    /// The number of a new struct, whose body comes later (X3.159-1989 3.5.2.3). Fails if memory runs out.
    pub fn declare_struct(&mut self) -> Result<u32, NoMemory>
        ensures number { IfOk result (λ number. number ≡ length self.old.structs) }
        ensures table { OnOk result (self.new ≡ with_struct self.old) }
        ensures grows { Grows self.old self.new }
        ensures unchanged { OnErr result (self.new ≡ self.old) }
    {
        let number = next_number(self.structs.len())?;
        self.structs.push(None)?;
        Ok(number)
    }

    /// The number of a new enumeration, whose constants come later (3.5.2.2). Fails if memory runs out.
    pub fn declare_enumeration(&mut self) -> Result<u32, NoMemory>
        ensures number { IfOk result (λ number. number ≡ length self.old.enumerations) }
        ensures table { OnOk result (self.new ≡ with_enumeration self.old) }
        ensures grows { Grows self.old self.new }
        ensures unchanged { OnErr result (self.new ≡ self.old) }
    {
        let number = next_number(self.enumerations.len())?;
        self.enumerations.push(None)?;
        Ok(number)
    }

    /// Gives a struct its body (3.5.2.1): each member lies after those before it. Fails if the struct has a body already, if the
    /// type of a member is incomplete, if the struct is larger than a type may be, or if memory runs out.
    ///
    /// Example: of `struct { char a; short b; char c; }` the fields lie at 0, 2 and 4, and the size is 6.
    pub fn complete_struct(
        &mut self,
        alloc: Global,
        number: u32,
        members: Vec<Member>,
    ) -> Result<(), TypeEnd>
        ensures made { OnOk result (completed number members.items self.old ≡ Ok self.new) }
        ensures refused { IfErr result (IsRefusal (completed number members.items self.old)) }
        ensures grows { Grows self.old self.new }
        ensures unchanged { OnErr result (self.new ≡ self.old) }
    {
        if !self.struct_awaits_body(number) {
            return Err(TypeEnd::Redefined);
        }
        let members = self.measured(alloc, members)?;
        let body = laid_out(alloc, members)?;
        self.structs[number as usize] = Some(body);
        Ok(())
    }

    /// Whether there is a struct of that number whose body has not come yet.
    ///
    /// Example: it is so after `struct S;`.
    pub fn struct_awaits_body(&self, number: u32) -> bool
        ensures { result ≡ awaits_body (slice_get self.now.structs number) }
    {
        matches!(self.structs.get(number as usize), Some(None))
    }

    /// Whether there is an enumeration of that number whose constants have not come yet.
    fn enumeration_awaits_body(&self, number: u32) -> bool
        ensures { result ≡ awaits_body (slice_get self.now.enumerations number) }
    {
        matches!(self.enumerations.get(number as usize), Some(None))
    }

    /// The members with what they take in memory.
    fn measured(&self, alloc: Global, members: Vec<Member>) -> Result<Vec<Measured>, TypeEnd>
        ensures members { IfOk result (λ its. measured self.now members.items ≡ Some its.items) }
        ensures refused { IfErr result (IsUnmeasured (measured self.now members.items)) }
    {
        let mut its = Vec::new(alloc);
        'members: for member in members {
            let Member { name, type_id } = member;
            let Some(layout) = self.layout(type_id) else {
                return Err(TypeEnd::Incomplete);
            };
            its.push(Measured {
                name,
                type_id,
                layout,
            })?;
        }
        Ok(its)
    }

    /// Gives an enumeration its constants (3.5.2.2). Fails if it has some already.
    pub fn complete_enumeration(&mut self, number: u32, constants: Constants) -> Result<(), TypeEnd>
        ensures made { OnOk result (enumerated number constants self.old ≡ Ok self.new) }
        ensures refused { IfErr result (λ why. enumerated number constants self.old ≡ Err why) }
        ensures grows { Grows self.old self.new }
        ensures unchanged { OnErr result (self.new ≡ self.old) }
    {
        if !self.enumeration_awaits_body(number) {
            return Err(TypeEnd::Redefined);
        }
        self.enumerations[number as usize] = Some(constants);
        Ok(())
    }
}

/// The number of the next struct or enumeration. There are no more than 4000000000.
fn next_number(count: usize) -> Result<u32, NoMemory>
    ensures { IfOk result (λ number. number ≡ count) }
{
    if count >= 4_000_000_000 {
        return Err(NoMemory);
    }
    Ok(count as u32)
}
