//! Declarations with linkage, by their names.

ghost use Rattle.std.specs.Prelude.{◌≡◌, ◌∷◌, ◌++◌, [], length, OnOk, OnErr, IfSome, IfNone, option_copied};
ghost use Rattle.hs_linkage.specs.Chains.{newest_first, externals_of, place, entry_at, IsChained};
ghost use Rattle.hs_linkage.specs.Externals.{all_agree, agree_if, is_unfit, newest_external, says_same, unfit};

use crate::entities::type_of;
use crate::questions::agrees;
use hs_base::{Bytes, NoMemory};
use hs_index::Index;
use hs_syntax::Word;
use hs_tokens::Place;
use hs_typer::{Entity, Mark, Origins, copied};
use hs_types::{TypeId, Types};
use std::alloc::Global;
use std::marker::Model;

/// The most declarations: the limits of a program are far below.
const MOST: usize = 4_000_000_000;

/// A declaration of a name with linkage.
#[derive(Drop)]
pub struct External {
    pub name: Bytes,
    /// The place of the name.
    pub at: Place,
    /// The number of its unit.
    pub unit: u32,
    /// Where it is in its unit.
    pub mark: Mark,
    /// An object or a function.
    pub entity: Entity,
}

/// A declaration, and the place of the next older one of its name.
#[derive(Drop)]
struct Entry {
    external: External,
    older: Option<u32>,
}

/// Declarations with linkage. Contracts see the list, the newest first. To look for those of one name takes no longer if there are many
/// of other names.
#[derive(Drop)]
pub struct Externals {
    entries: Vec<Entry>,
    index: Index,
}

impl Model for Externals {
    ghost use Rattle.std.specs.Prelude.{List};
    ghost use Rattle.hs_linkage.specs.Chains.{newest_first, externals_of, IsKept};
    ghost use Rattle.hs_linkage.specs.declared.externals.External.{External};

    ghost Value = { List External };

    ghost view = { λ it. externals_of (newest_first it.entries.items) };

    ghost invariant = { λ it. IsKept it.index it.entries.items };
}

impl Externals {
    ghost use Rattle.hs_linkage.specs.Externals.{external_of, with_external};

    /// No declarations. Takes no memory.
    pub fn new(alloc: Global) -> Externals
        ensures { result ≡ [] }
    {
        Externals {
            entries: Vec::new(alloc),
            index: Index::new(alloc),
        }
    }

    /// How many declarations there are.
    pub(crate) fn len(&self) -> usize
        ensures { result ≡ length self.now }
    {
        self.entries.len()
    }

    /// The newest declaration of the name, if there is one.
    ///
    /// Example: `None` for any name that was not declared.
    pub fn newest(&self, name: &[u8]) -> Option<Entity>
        ensures { result ≡ newest_external name.now self.now }
    {
        match entry_at(&self.entries, self.index.place(name)) {
            Some(entry) => Some(entry.external.entity),
            None => None,
        }
    }

    /// Whether each declaration of the name is of a type that is compatible with this one.
    pub(crate) fn agree(&self, types: &Types, origins: &Origins, name: &[u8], id: TypeId) -> bool
        ensures { result ≡ all_agree types.now origins.now name.now id self.now }
    {
        let newest = self.index.place(name);
        each_agrees(types, origins, name, id, &self.entries, newest)
    }

    /// Notes a declaration, unless the newest one of the name says the same. Fails if memory runs out.
    pub(crate) fn note(
        &mut self,
        alloc: Global,
        word: &Word,
        unit: u32,
        mark: Mark,
        entity: Entity,
    ) -> Result<(), NoMemory>
        ensures noted { OnOk result (self.new ≡ with_external word.now unit mark entity self.old) }
        ensures unchanged { OnErr result (self.new ≡ self.old) }
    {
        if says_same(self.newest(word.text.items()), entity) {
            return Ok(());
        }
        self.push(alloc, word, unit, mark, entity)
    }

    /// One more declaration. Fails if memory runs out.
    fn push(
        &mut self,
        alloc: Global,
        word: &Word,
        unit: u32,
        mark: Mark,
        entity: Entity,
    ) -> Result<(), NoMemory>
        ensures pushed { OnOk result (self.new ≡ external_of word.now unit mark entity ∷ self.old) }
        ensures unchanged { OnErr result (self.new ≡ self.old) }
    {
        let name = word.text.items();
        let key = name.to_vec(alloc)?;
        let name = copied(alloc, name)?;
        let at = word.place;
        self.put(
            key,
            External {
                name,
                at,
                unit,
                mark,
                entity,
            },
        )
    }

    /// The first declaration of this unit that does not fit one of the others, if there is one.
    #[tactic(auto, using(crate::proofs::Unfit::unfit_entries))]
    pub(crate) fn unfit(&self, types: &Types, origins: &Origins) -> Option<&External>
        ensures { option_copied result ≡ unfit types.now origins.now self.now self.now }
    {
        'entries: for entry in &self.entries {
            if self.is_unfit(types, origins, &entry.external) {
                return Some(&entry.external);
            }
        }
        None
    }

    /// Whether a declaration is of this unit and does not fit one of the others.
    fn is_unfit(&self, types: &Types, origins: &Origins, it: &External) -> bool
        ensures { result ≡ is_unfit types.now origins.now self.now it.now }
    {
        it.unit == origins.unit
            && !self.agree_if(types, origins, it.name.items(), type_of(it.entity))
    }

    /// Whether each declaration of the name is of a type that is compatible with this one, if there is one.
    fn agree_if(&self, types: &Types, origins: &Origins, name: &[u8], id: Option<TypeId>) -> bool
        ensures { result ≡ agree_if types.now origins.now name.now id self.now }
    {
        match id {
            Some(id) => self.agree(types, origins, name, id),
            None => false,
        }
    }

    /// One more declaration, of whose name there are two copies.
    fn put(&mut self, key: Vec<u8>, external: External) -> Result<(), NoMemory>
        requires { key.items ≡ external.name }
        ensures pushed { OnOk result (self.new ≡ external ∷ self.old) }
        ensures unchanged { OnErr result (self.new ≡ self.old) }
    {
        let count = self.entries.len();
        if count >= MOST {
            return Err(NoMemory);
        }
        let older = self.index.place(&key);
        self.entries.push(Entry { external, older })?;
        match self.index.put(key, count as u32) {
            Ok(()) => Ok(()),
            Err(why) => {
                let _ = popped(&mut self.entries);
                Err(why)
            }
        }
    }
}

/// Whether the newest declaration says the same.
fn says_same(newest: Option<Entity>, entity: Entity) -> bool
    ensures { result ≡ says_same newest entity }
{
    match newest {
        Some(old) => old == entity,
        None => false,
    }
}

/// The entry at that place, if there is one.
fn entry_at(entries: &[Entry], place: Option<u32>) -> Option<&Entry>
    ensures { option_copied result ≡ entry_at place entries.now }
{
    entries.get(place? as usize)
}

/// Takes the last entry, if there is one.
fn popped(entries: &mut Vec<Entry>) -> Option<Entry>
    ensures some { IfSome result (λ it. entries.old.items ≡ entries.new.items ++ it ∷ []) }
    ensures none { IfNone result (entries.old.items ≡ []) }
{
    entries.pop()
}

/// Whether each declaration of the name is of a type that is compatible with this one. `newest` is the place of the newest one.
fn each_agrees(
    types: &Types,
    origins: &Origins,
    name: &[u8],
    id: TypeId,
    entries: &[Entry],
    newest: Option<u32>,
) -> bool
    requires chained { IsChained (newest_first entries.now) }
    requires newest { newest ≡ place name.now (newest_first entries.now) }
    ensures { result ≡ all_agree types.now origins.now name.now id (externals_of (newest_first entries.now)) }
{
    let mut next = newest;
    'entries: while let Some(entry) = entry_at(entries, next) {
        if !agrees(types, origins, id, type_of(entry.external.entity)) {
            return false;
        }
        next = entry.older;
    }
    true
}
