//! Scopes.

ghost use Rattle.std.specs.Prelude.{◌≡◌, ◌==◌, [], ◌∷◌, ◌++◌, OnOk, OnErr, IfSome, IfNone, IfOk, IsTrue, map, option_map, option_copied, slice_get};
ghost use Rattle.hs_names.specs.Entries.{declaration, named_at};
ghost use Rattle.hs_names.specs.Lists.{IsLast};
ghost use Rattle.hs_names.specs.Scopes.{find, find_here, declared, declared_outside, entered, left, cleared, inside, newest, is_newest_here, without_newest};

use hs_base::NoMemory;
use hs_index::Index;
use std::alloc::Global;
use std::marker::Model;

/// The most declarations: the limits of a program are far below.
const MOST: usize = 4_000_000_000;

/// A declaration, and the place of the one that it hides.
#[derive(Drop)]
struct Entry<E: Copy + Drop> {
    name: Vec<u8>,
    entity: E,
    level: u32,
    hidden: Option<u32>,
}

/// A name, and what it means.
#[derive(Drop)]
struct Named<E: Copy + Drop> {
    name: Vec<u8>,
    entity: E,
}

/// The names that are declared, each with what it means. To look for a name takes no longer if there are many.
#[derive(Drop)]
pub struct Scopes<E: Copy + Drop> {
    entries: Vec<Entry<E>>,
    index: Index,
    level: u32,
}

impl<E: Copy + Drop> Model for Scopes<E> {
    ghost use Rattle.hs_names.specs.Scopes.{Scoped};
    ghost use Rattle.hs_names.specs.Entries.{declarations_of, IsKept};

    ghost Value = { Scoped E };

    ghost view = { λ it. record { declarations = declarations_of it.entries.items; level = it.level } };

    ghost invariant = { λ it. IsKept it.index it.entries.items };
}

impl<E: Copy + Drop> Scopes<E> {
    ghost use Rattle.hs_names.specs.Entries.{declaration, named_at};

    /// No names, in file scope. Takes no memory.
    pub fn new(alloc: Global) -> Scopes<E>
        ensures { result ≡ record { declarations = []; level = 0 } }
    {
        Scopes {
            entries: Vec::new(alloc),
            index: Index::new(alloc),
            level: 0,
        }
    }

    /// Whether the outermost scope is the innermost one too: names are declared at file scope.
    ///
    /// Example: `true` of no scopes, and `false` after `enter`.
    pub fn is_outermost(&self) -> bool
        ensures { result ≡ (self.now.level == 0) }
    {
        self.level == 0
    }

    /// What the name means: its innermost declaration, if there is one (X3.159-1989 3.1.2.1).
    ///
    /// Example: in a block that declares `x` again, what the block declares.
    pub fn find(&self, name: &[u8]) -> Option<E>
        ensures { result ≡ find name.now self.now }
    {
        Some(self.newest(name)?.entity)
    }

    /// What the name was declared as in the innermost scope, if it was declared there.
    pub fn find_here(&self, name: &[u8]) -> Option<E>
        ensures { result ≡ find_here name.now self.now }
    {
        let entry = self.newest(name)?;
        if entry.level == self.level {
            Some(entry.entity)
        } else {
            None
        }
    }

    /// The newest declaration of the name.
    fn newest(&self, name: &[u8]) -> Option<&Entry<E>>
        ensures { option_map declaration (option_copied result) ≡ newest name.now self.now.declarations }
    {
        match self.index.place(name) {
            Some(place) => entry_at(&self.entries, place),
            None => None,
        }
    }

    /// Declares the name in the innermost scope. It hides what the name meant before. Fails if memory runs out.
    pub fn declare(&mut self, alloc: Global, name: &[u8], entity: E) -> Result<(), NoMemory>
        ensures declared { OnOk result (self.new ≡ declared name.now entity self.old) }
        ensures unchanged { OnErr result (self.new ≡ self.old) }
    {
        let key = name.to_vec(alloc)?;
        let name = name.to_vec(alloc)?;
        self.put(name, key, entity)
    }

    /// Declares the name, of which there are two copies.
    fn put(&mut self, name: Vec<u8>, key: Vec<u8>, entity: E) -> Result<(), NoMemory>
        requires { key.items ≡ name.items }
        ensures declared { OnOk result (self.new ≡ declared name.items entity self.old) }
        ensures unchanged { OnErr result (self.new ≡ self.old) }
    {
        let count = self.entries.len();
        if count >= MOST {
            return Err(NoMemory);
        }
        let hidden = self.index.place(&name);
        self.entries.push(Entry {
            name,
            entity,
            level: self.level,
            hidden,
        })?;
        match self.index.put(key, count as u32) {
            Ok(()) => Ok(()),
            Err(why) => {
                let _ = self.entries.pop();
                Err(why)
            }
        }
    }

    /// The names, with one more in the scope around the innermost one. What the innermost scope declares still hides it. Fails if memory
    /// runs out.
    ///
    /// Example: a function that is being defined, while the scope of its parameters is the innermost one.
    pub fn with_outer(self, alloc: Global, name: &[u8], entity: E) -> Result<Scopes<E>, NoMemory>
        ensures { IfOk result (λ all. all ≡ declared_outside name.now entity self) }
    {
        let inner = self.inner(alloc)?;
        let level = self.level;
        let mut all = self;
        all.leave();
        all.declare(alloc, name, entity)?;
        all.level = level;
        all.with_all(alloc, inner)
    }

    /// Copies of the declarations of the innermost scope, the newest first.
    #[tactic(auto, using(crate::proofs::Newest::inside_here, crate::proofs::Newest::inside_gone))]
    fn inner(&self, alloc: Global) -> Result<Vec<Named<E>>, NoMemory>
        ensures { IfOk result (λ its. map (named_at self.now.level) its.items ≡ inside self.now.level self.now.declarations) }
    {
        let mut done = Vec::new(alloc);
        let mut rest = self.entries.as_slice();
        'rest: while let Some((last, front)) = parted(rest) {
            if last.level != self.level {
                return Ok(done);
            }
            done = with_copy(alloc, done, last)?;
            rest = front;
        }
        Ok(done)
    }

    /// The names, with these in the innermost scope, the last one first.
    fn with_all(self, alloc: Global, its: Vec<Named<E>>) -> Result<Scopes<E>, NoMemory>
        ensures { IfOk result
            (λ all. all ≡ record { declarations = map (named_at self.level) its.items ++ self.declarations; level = self.level }) }
    {
        let mut all = self;
        let mut rest = its;
        'rest: while let Some(it) = last_named(&mut rest) {
            all.declare(alloc, &it.name, it.entity)?;
        }
        Ok(all)
    }

    /// Begins a scope inside the innermost one. Fails if there are more scopes than memory could hold.
    pub fn enter(&mut self) -> Result<(), NoMemory>
        ensures entered { OnOk result (self.new ≡ entered self.old) }
        ensures unchanged { OnErr result (self.new ≡ self.old) }
    {
        self.level = self.level.checked_add(1).ok_or(NoMemory)?;
        Ok(())
    }

    /// Ends the innermost scope: what it declared is gone, and what it hid is visible again. At file scope nothing is left, and the
    /// next declarations are at file scope again. Takes no memory.
    pub fn leave(&mut self)
        ensures { self.new ≡ left self.old }
    {
        self.clear();
        self.level = self.level.saturating_sub(1);
    }

    /// Takes away what the innermost scope declared.
    fn clear(&mut self)
        ensures { self.new ≡ cleared self.old }
    {
        'entries: while self.is_newest_here() {
            self.drop_newest();
        }
    }

    /// Whether the newest declaration is of the innermost scope.
    fn is_newest_here(&self) -> bool
        ensures { result ≡ is_newest_here self.now }
    {
        match last_of(&self.entries) {
            Some(last) => last.level == self.level,
            None => false,
        }
    }

    /// Takes the newest declaration away, which is of the innermost scope.
    fn drop_newest(&mut self)
        requires { IsTrue (is_newest_here self.old) }
        ensures { self.new ≡ without_newest self.old }
    {
        let Some(Entry { name, hidden, .. }) = popped(&mut self.entries) else {
            return;
        };
        match hidden {
            Some(place) => match self.index.put(name, place) {
                Ok(()) => {}
                Err(_) => unreachable!(),
            },
            None => self.index.remove(&name),
        }
    }
}

/// The entry at that place, if there is one.
fn entry_at<E: Copy + Drop>(entries: &[Entry<E>], place: u32) -> Option<&Entry<E>>
    ensures { option_copied result ≡ slice_get entries.now place }
{
    entries.get(place as usize)
}

/// The last entry, if there is one.
fn last_of<E: Copy + Drop>(entries: &[Entry<E>]) -> Option<&Entry<E>>
    ensures some { IfSome result (λ it. IsLast entries.now it.now) }
    ensures none { IfNone result (entries.now ≡ []) }
{
    match entries.split_last() {
        Some((last, _)) => Some(last),
        None => None,
    }
}

/// The names, and a copy of that of an entry.
fn with_copy<E: Copy + Drop>(
    alloc: Global,
    names: Vec<Named<E>>,
    entry: &Entry<E>,
) -> Result<Vec<Named<E>>, NoMemory>
    ensures { IfOk result
        (λ all. map (named_at entry.now.level) all.items ≡ map (named_at entry.now.level) names.items ++ declaration entry.now ∷ []) }
{
    let mut all = names;
    let name = entry.name.to_vec(alloc)?;
    all.push(Named {
        name,
        entity: entry.entity,
    })?;
    Ok(all)
}

/// The last entry, and those before it, if there is one.
fn parted<E: Copy + Drop>(entries: &[Entry<E>]) -> Option<(&Entry<E>, &[Entry<E>])>
    ensures some { IfSome result (λ it. entries.now ≡ it.1.now ++ it.0.now ∷ []) }
    ensures none { IfNone result (entries.now ≡ []) }
{
    entries.split_last()
}

/// Takes the last entry, if there is one.
fn popped<E: Copy + Drop>(entries: &mut Vec<Entry<E>>) -> Option<Entry<E>>
    ensures some { IfSome result (λ it. entries.old.items ≡ entries.new.items ++ it ∷ []) }
    ensures none { IfNone result (entries.old.items ≡ []) }
{
    entries.pop()
}

/// Takes the last name, if there is one.
fn last_named<E: Copy + Drop>(names: &mut Vec<Named<E>>) -> Option<Named<E>>
    ensures some { IfSome result (λ it. names.old.items ≡ names.new.items ++ it ∷ []) }
    ensures none { IfNone result (names.old.items ≡ []) }
{
    names.pop()
}
