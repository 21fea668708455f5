//! Where structs come from, by their numbers and by their tags.

ghost use Rattle.std.specs.Prelude.{◌≡◌, ◌++◌, ◌∷◌, [], false, true, slice_get, option_copied, IfOk, OnOk, OnErr, IfSome, IfNone};
ghost use Rattle.hs_typer.specs.Tags.{new_origin, tagged, whole_at, outer_name, bytes_if, name_in, is_at_most, PutsFirst, PutsLeast};

use crate::origins::{Brace, Origin};
use hs_base::{Bytes, NoMemory};
use hs_index::Index;
use std::alloc::Global;
use std::marker::Model;

/// The most structs: the limits of a program are far below.
const MOST: usize = 4_000_000_000;

/// Where structs come from. Contracts see the list. To look for a struct by its tag takes no longer if there are many.
#[derive(Drop)]
pub struct Structs {
    log: Vec<Origin>,
    /// The first struct of each tag of file scope.
    any: Index,
    /// The first one of them that has its body.
    whole: Index,
}

impl Model for Structs {
    ghost use Rattle.std.specs.Prelude.{List, true, false};
    ghost use Rattle.hs_typer.specs.Tags.{IsByTag};
    ghost use Rattle.hs_typer.specs.declared.origins.Origin.{Origin};

    ghost Value = { List Origin };

    ghost view = { λ it. it.log.items };

    ghost invariant = { λ it. IsByTag false it.log.items it.any × IsByTag true it.log.items it.whole };
}

impl Structs {
    /// No structs. Takes no memory.
    pub(crate) fn new(alloc: Global) -> Structs
        ensures { result ≡ [] }
    {
        Structs {
            log: Vec::new(alloc),
            any: Index::new(alloc),
            whole: Index::new(alloc),
        }
    }

    /// Lends the structs.
    ///
    /// Example: one for each struct of the table of types.
    pub fn items(&self) -> &[Origin]
        ensures { result.now ≡ self.now }
    {
        self.log.as_slice()
    }

    /// The struct of that number, if there is one.
    pub(crate) fn get(&self, number: u32) -> Option<&Origin>
        ensures { option_copied result ≡ slice_get self.now number }
    {
        self.log.get(number as usize)
    }

    /// The first struct of that tag at file scope.
    pub(crate) fn first(&self, tag: &[u8]) -> Option<u32>
        ensures { result ≡ tagged false tag.now 0 self.now }
    {
        self.any.place(tag)
    }

    /// The first struct of that tag at file scope that has its body.
    pub(crate) fn first_whole(&self, tag: &[u8]) -> Option<u32>
        ensures { result ≡ tagged true tag.now 0 self.now }
    {
        self.whole.place(tag)
    }

    /// One more struct, which has no body yet. Fails if memory runs out.
    pub(crate) fn add(
        &mut self,
        alloc: Global,
        outer: bool,
        tag: Option<Bytes>,
        unit: u32,
    ) -> Result<(), NoMemory>
        ensures { OnOk result (self.new ≡ self.old ++ new_origin outer tag unit ∷ []) }
    {
        let count = self.log.len();
        if count >= MOST {
            return Err(NoMemory);
        }
        let name = outer_name(alloc, outer, tag.as_ref())?;
        self.log.push(Origin {
            tag,
            unit,
            outer,
            whole: false,
            brace: None,
        })?;
        match put_first(&mut self.any, name, count as u32) {
            Ok(()) => Ok(()),
            Err(why) => {
                let _ = popped(&mut self.log);
                Err(why)
            }
        }
    }

    /// The struct of that number has its body, which begins at that brace, if it begins in a file. Fails if memory runs out.
    pub(crate) fn complete(
        &mut self,
        alloc: Global,
        number: u32,
        brace: Option<Brace>,
    ) -> Result<(), NoMemory>
        ensures { OnOk result (self.new ≡ whole_at brace (slice_get self.old number) self.old number) }
    {
        let name = self.name_of(alloc, number)?;
        put_least(&mut self.whole, name, number)?;
        set_whole(&mut self.log, number, brace);
        Ok(())
    }

    /// The tag of the struct of that number, if it is of file scope.
    fn name_of(&self, alloc: Global, number: u32) -> Result<Option<Vec<u8>>, NoMemory>
        ensures { IfOk result (λ name. bytes_if name ≡ name_in (slice_get self.now number)) }
    {
        match self.log.get(number as usize) {
            Some(it) => outer_name(alloc, it.outer, it.tag.as_ref()),
            None => Ok(None),
        }
    }
}

/// A copy of the tag, if it is of file scope.
fn outer_name(alloc: Global, outer: bool, tag: Option<&Bytes>) -> Result<Option<Vec<u8>>, NoMemory>
    ensures { IfOk result (λ name. bytes_if name ≡ outer_name outer (option_copied tag.entry)) }
{
    match tag {
        Some(name) if outer => Ok(Some(name.items().to_vec(alloc)?)),
        Some(_) | None => Ok(None),
    }
}

/// Gives the name, if there is one, that struct, unless it has one. Fails if memory runs out.
fn put_first(names: &mut Index, name: Option<Vec<u8>>, number: u32) -> Result<(), NoMemory>
    ensures put { OnOk result (PutsFirst (bytes_if name) number names.old names.new) }
    ensures unchanged { OnErr result (names.new ≡ names.old) }
{
    let Some(name) = name else {
        return Ok(());
    };
    if names.place(&name).is_some() {
        return Ok(());
    }
    names.put(name, number)
}

/// Gives the name, if there is one, that struct, unless it has an earlier one. Fails if memory runs out.
fn put_least(names: &mut Index, name: Option<Vec<u8>>, number: u32) -> Result<(), NoMemory>
    ensures put { OnOk result (PutsLeast (bytes_if name) number names.old names.new) }
    ensures unchanged { OnErr result (names.new ≡ names.old) }
{
    let Some(name) = name else {
        return Ok(());
    };
    if is_at_most(names.place(&name), number) {
        return Ok(());
    }
    names.put(name, number)
}

/// Whether there is a place that is no later than that one.
fn is_at_most(place: Option<u32>, number: u32) -> bool
    ensures { result ≡ is_at_most place number }
{
    match place {
        Some(old) => old <= number,
        None => false,
    }
}

/// Takes the last struct, if there is one.
fn popped(log: &mut Vec<Origin>) -> Option<Origin>
    ensures some { IfSome result (λ it. log.old.items ≡ log.new.items ++ it ∷ []) }
    ensures none { IfNone result (log.old.items ≡ []) }
{
    log.pop()
}

/// The struct of that number has its body, if there is one of that number.
fn set_whole(log: &mut Vec<Origin>, number: u32, brace: Option<Brace>)
    ensures { log.new.items ≡ whole_at brace (slice_get log.old.items number) log.old.items number }
{
    if (number as usize) < log.len() {
        log[number as usize].complete(brace);
    }
}
