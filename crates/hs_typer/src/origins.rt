//! Where structs and enumerations come from.

ghost use Rattle.std.specs.Prelude.{◌≡◌, [], OnOk, OnErr, option_copied, slice_get};

use crate::structs::Structs;
use crate::{Log, Tag};
use hs_base::{Bytes, NoMemory};
use hs_tokens::Place;
use indexmap::IndexMap;
use std::alloc::Global;
use std::marker::Model;

/// Where a body begins: its `{`, and how many bodies of the unit began there before it. A file that is included twice has two.
#[derive(Clone, Copy, PartialEq, Eq, Hash)]
pub struct Brace {
    /// The number of the file.
    pub file: u16,
    pub line: u32,
    pub col: u32,
    pub time: u32,
}

impl Brace {
    ghost use Rattle.hs_typer.specs.Origins.{brace_of};

    /// The brace at that place, if so many bodies of the unit began there before it.
    pub(crate) fn of(at: Place, time: u32) -> Brace
        ensures { result ≡ brace_of at time }
    {
        Brace {
            file: at.pos.file,
            line: at.pos.line,
            col: at.pos.col,
            time,
        }
    }
}

/// Where a struct comes from.
#[derive(Drop)]
pub struct Origin {
    pub tag: Option<Bytes>,
    /// The number of its unit.
    pub unit: u32,
    /// Whether it has a tag of file scope.
    pub outer: bool,
    /// Whether it has its body.
    pub whole: bool,
    /// Where its body begins, if it has one that begins in a file.
    pub brace: Option<Brace>,
}

impl Origin {
    ghost use Rattle.std.specs.Prelude.{true};

    /// It has its body, which begins at that brace, if it begins in a file.
    pub(crate) fn complete(&mut self, brace: Option<Brace>)
        ensures { self.new ≡ record self.old { whole = true; brace = brace } }
    {
        self.whole = true;
        self.brace = brace;
    }
}

/// What is kept for each brace. Contracts see the braces with it, in the order in which they came.
#[derive(Drop)]
pub struct Braces<T: Copy + Drop> {
    map: IndexMap<Brace, T>,
}

impl<T: Copy + Drop> Model for Braces<T> {
    ghost use Rattle.std.specs.Prelude.{List};
    ghost use Rattle.hs_typer.specs.declared.origins.Brace.{Brace};

    ghost Value = { List (Brace × T) };

    ghost view = { λ it. it.map.entries };
}

impl<T: Copy + Drop> Braces<T> {
    ghost use Rattle.indexmap.specs.IndexMap.{insert_entry};
    ghost use Rattle.hs_typer.specs.Origins.{same_brace, kept_for};

    /// Nothing is kept. Takes no memory.
    pub fn new(alloc: Global) -> Braces<T>
        ensures { result ≡ [] }
    {
        Braces {
            map: IndexMap::new(alloc),
        }
    }

    /// What is kept for the brace, if anything is.
    ///
    /// Example: `None` for any brace that was not put.
    pub fn get(&self, brace: Brace) -> Option<T>
        ensures { result ≡ kept_for brace self.now }
    {
        self.map.get(&brace).copied()
    }

    /// Keeps that for the brace, and no more what was kept for it. Fails if memory runs out.
    pub fn put(&mut self, brace: Brace, it: T) -> Result<(), NoMemory>
        ensures put { OnOk result (self.new ≡ insert_entry same_brace self.old brace it) }
        ensures unchanged { OnErr result (self.new ≡ self.old) }
    {
        self.map.insert(brace, it)?;
        Ok(())
    }
}

/// Where the structs and enumerations come from, by their numbers in the table of types.
#[derive(Drop)]
pub struct Origins {
    /// The number of the unit that is typed.
    pub unit: u32,
    /// How many bodies of this unit began at each place.
    pub times: Braces<u32>,
    /// The first struct or enumeration whose body begins at each brace.
    pub firsts: Braces<Tag>,
    /// Where each struct comes from.
    pub structs: Structs,
    /// Where the body of each enumeration begins, if it begins in a file.
    pub enumerations: Log<Option<Brace>>,
}

impl Origins {
    ghost use Rattle.hs_typer.specs.Origins.{with_struct_origin, times_at, met, kept_struct, struct_brace, first_of, stands_named, stands_alone, stands_for, begun_nowhere};
    ghost use Rattle.hs_typer.specs.Steps.{no_origins};

    /// Nothing, before the first unit. Takes no memory.
    pub fn new(alloc: Global) -> Origins
        ensures { result ≡ no_origins }
    {
        Origins {
            unit: 0,
            times: Braces::new(alloc),
            firsts: Braces::new(alloc),
            structs: Structs::new(alloc),
            enumerations: Log::new(alloc),
        }
    }

    /// One more struct of this unit; `outer` is whether it has a tag of file scope.
    pub(crate) fn add_struct(
        &mut self,
        alloc: Global,
        outer: bool,
        tag: Option<Bytes>,
    ) -> Result<(), NoMemory>
        ensures { OnOk result (self.new ≡ with_struct_origin outer tag self.old) }
    {
        self.structs.add(alloc, outer, tag, self.unit)
    }

    /// The struct whose body begins at that brace, if it came first.
    fn kept_struct(&self, brace: Option<Brace>) -> Option<u32>
        ensures { result ≡ kept_struct self.now.firsts brace }
    {
        match self.firsts.get(brace?) {
            Some(Tag::Struct(number)) => Some(number),
            Some(Tag::Enumeration(_)) | None => None,
        }
    }

    /// Where the body of the struct of that number begins, if it begins in a file.
    ///
    /// Example: `None` for a struct that has no body yet.
    pub fn struct_brace(&self, number: u32) -> Option<Brace>
        ensures { result ≡ struct_brace (slice_get self.now.structs number) }
    {
        match self.structs.get(number) {
            Some(it) => it.brace,
            None => None,
        }
    }

    /// The first struct at the brace of that one, or else that one.
    fn first_of(&self, number: u32) -> u32
        ensures { result ≡ first_of self.now number }
    {
        self.kept_struct(self.struct_brace(number))
            .unwrap_or(number)
    }

    /// What stands for a struct of that tag, which has no body in its unit.
    fn stands_named(&self, number: u32, tag: Option<&Bytes>) -> u32
        ensures { result ≡ stands_named self.now number (option_copied tag.entry) }
    {
        let Some(name) = tag else {
            return number;
        };
        match self.structs.first_whole(name.items()) {
            Some(whole) => self.first_of(whole),
            None => self.structs.first(name.items()).unwrap_or(number),
        }
    }

    /// What stands for a struct whose body, if it has one, begins in no file.
    fn stands_alone(&self, number: u32, it: &Origin) -> u32
        ensures { result ≡ stands_alone self.now number it.now }
    {
        if it.outer && !it.whole {
            self.stands_named(number, it.tag.as_ref())
        } else {
            number
        }
    }

    /// The struct that stands for the one of that number, by what is known here (own; X3.159-1989 3.1.2.6). Structs whose bodies begin at one
    /// brace of a file are one, and the first of them stands for all. A tag of file scope that has no body in its unit is one with the first
    /// struct of that tag that has one, or else with the first one of that tag. Each other struct stands for itself. So does a number that is
    /// past the end.
    ///
    /// Example: of a program with one unit each struct stands for itself.
    pub fn stands_for(&self, number: u32) -> u32
        ensures { result ≡ stands_for self.now number }
    {
        match self.structs.get(number) {
            Some(it) => match it.brace {
                Some(brace) => self.kept_struct(Some(brace)).unwrap_or(number),
                None => self.stands_alone(number, it),
            },
            None => number,
        }
    }

    /// How many bodies of this unit began at that place.
    pub(crate) fn times_at(&self, at: Place) -> u32
        ensures { result ≡ times_at at self.now }
    {
        match self.times.get(Brace::of(at, 0)) {
            Some(times) => times,
            None => 0,
        }
    }

    /// The body of that struct or enumeration begins at that brace, and is one more of this unit at that place.
    pub(crate) fn meet(
        &mut self,
        alloc: Global,
        at: Place,
        it: Tag,
        brace: Brace,
    ) -> Result<(), NoMemory>
        ensures { OnOk result (self.new ≡ met at it brace self.old) }
    {
        let times = self.times_at(at).checked_add(1).ok_or(NoMemory)?;
        self.times.put(Brace::of(at, 0), times)?;
        match it {
            Tag::Struct(number) => self.structs.complete(alloc, number, Some(brace)),
            Tag::Enumeration(number) => {
                self.enumerations.set(number, Some(brace));
                Ok(())
            }
        }
    }

    /// The body of that struct or enumeration begins at no place of a file.
    pub(crate) fn meet_nowhere(&mut self, alloc: Global, it: Tag) -> Result<(), NoMemory>
        ensures { OnOk result (self.new ≡ begun_nowhere it self.old) }
    {
        match it {
            Tag::Struct(number) => self.structs.complete(alloc, number, None),
            Tag::Enumeration(_) => Ok(()),
        }
    }
}
