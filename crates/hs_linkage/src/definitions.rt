//! The functions that a program defines.

ghost use Rattle.std.specs.Prelude.{◌≡◌, ◌<◌, ◌++◌, ◌∷◌, [], ℕ, true, length, map, option_copied, IfOk, OnOk};
ghost use Rattle.hs_linkage.specs.Indexes.{own_names, Holds, PutsFirst, external_by, externals_by};
ghost use Rattle.hs_linkage.specs.Definitions.{first_place, is_definition_of, text_of, definitions_in, all_definitions};
ghost use Rattle.hs_syntax.specs.Views.{view_external, view_unit};
ghost use Rattle.hs_typer.specs.Declarators.{word_of};

use crate::statics::statics_of;
use hs_base::{Bytes, NoMemory};
use hs_index::Index;
use hs_syntax::{External, Unit, Word};
use hs_typer::{copied, next_place, word_of};
use std::alloc::Global;
use std::marker::Model;

/// The most definitions: the limits of a program are far below.
const MOST: usize = 4_000_000_000;

/// A function that is defined.
#[derive(Drop)]
pub struct Definition {
    pub name: Bytes,
    /// The number of its unit.
    pub unit: u32,
    /// Whether its linkage is internal.
    pub internal: bool,
}

/// The functions that a program defines, in the order of the text. Contracts see the list. To look for one takes no longer if there are
/// many.
#[derive(Drop)]
pub struct Definitions {
    vec: Vec<Definition>,
    /// The first definition with external linkage of each name.
    externals: Index,
    /// For each unit, its first definition of each name.
    units: Vec<Index>,
}

impl Model for Definitions {
    ghost use Rattle.std.specs.Prelude.{List};
    ghost use Rattle.hs_linkage.specs.Indexes.{IsIndexed};
    ghost use Rattle.hs_linkage.specs.declared.definitions.Definition.{Definition};

    ghost Value = { List Definition };

    ghost view = { λ it. it.vec.items };

    ghost invariant = { λ it. IsIndexed it.externals it.units.items it.vec.items };
}

impl Definitions {
    ghost use Rattle.hs_linkage.specs.Indexes.{defined_as};

    /// The functions that these units define. A function has internal linkage if the first declaration of its name at file scope of its
    /// unit has the word `static`. Fails if memory runs out.
    ///
    /// Example: `static int f(void);` and later `int f(void) { return 1; }` define `f` with internal linkage.
    pub fn of(alloc: Global, units: &[Unit]) -> Result<Definitions, NoMemory>
        ensures { IfOk result (λ its. its ≡ all_definitions 0 (map view_unit units.now)) }
    {
        let mut its = Definitions {
            vec: Vec::new(alloc),
            externals: Index::new(alloc),
            units: Vec::new(alloc),
        };
        let mut number = 0u32;
        'units: for unit in units {
            its = its.with_unit(alloc, number, &unit.externals)?;
            number = next_place(number)?;
        }
        Ok(its)
    }

    /// The place of the function of that name that a declaration with that linkage in that unit refers to, if it is defined.
    ///
    /// Example: with external linkage, the definition may be in another unit.
    pub fn number_of(&self, internal: bool, unit: u32, name: &[u8]) -> Option<u32>
        ensures { result ≡ first_place (is_definition_of internal unit name.now) self.now }
    {
        if internal {
            self.number_in(unit, name)
        } else {
            self.externals.place(name)
        }
    }

    /// The place of the first function of that name that the unit defines.
    fn number_in(&self, unit: u32, name: &[u8]) -> Option<u32>
        ensures { result ≡ first_place (is_definition_of true unit name.now) self.now }
    {
        match self.units.get(unit as usize) {
            Some(names) => names.place(name),
            None => None,
        }
    }

    /// Lends the definitions.
    pub fn items(&self) -> &[Definition]
        ensures { result.now ≡ self.now }
    {
        self.vec.as_slice()
    }

    /// The definitions, and those of one unit more.
    fn with_unit(self, alloc: Global, unit: u32, its: &[External]) -> Result<Definitions, NoMemory>
        ensures { IfOk result (λ all. all ≡ self ++ definitions_in unit (map view_external its.now) (map view_external its.now)) }
    {
        let statics = statics_of(alloc, its)?;
        self.with_externals(alloc, unit, &statics, its)
    }

    /// The definitions, and those of these external declarations. The index has the linkage of their names.
    fn with_externals(
        self,
        alloc: Global,
        unit: u32,
        statics: &Index,
        its: &[External],
    ) -> Result<Definitions, NoMemory>
        ensures { IfOk result (λ all. all ≡ self ++ externals_by statics.now unit (map view_external its.now)) }
    {
        let mut all = self;
        'its: for it in its {
            all = all.with_external(alloc, unit, statics, it)?;
        }
        Ok(all)
    }

    /// The definitions, and that of an external declaration, if it defines a function.
    fn with_external(
        self,
        alloc: Global,
        unit: u32,
        statics: &Index,
        it: &External,
    ) -> Result<Definitions, NoMemory>
        ensures { IfOk result (λ all. all ≡ self ++ external_by statics.now unit (view_external it.now)) }
    {
        match it {
            External::Function { declarator, .. } => {
                let name = text_of(word_of(declarator));
                self.with(alloc, unit, name, statics.place(name) == Some(1))
            }
            External::Declaration(_) => Ok(self),
        }
    }

    /// The definitions, and one more.
    fn with(
        self,
        alloc: Global,
        unit: u32,
        name: &[u8],
        internal: bool,
    ) -> Result<Definitions, NoMemory>
        ensures { IfOk result (λ all. all ≡ self ++ defined_as name.now unit internal ∷ []) }
    {
        let Definitions {
            mut vec,
            externals,
            units,
        } = self;
        let count = vec.len();
        if count >= MOST {
            return Err(NoMemory);
        }
        let number = count as u32;
        let units = with_own(alloc, units, unit, name, number)?;
        let externals = with_external_name(alloc, externals, name, number, internal)?;
        let name = copied(alloc, name)?;
        vec.push(Definition {
            name,
            unit,
            internal,
        })?;
        Ok(Definitions {
            vec,
            externals,
            units,
        })
    }
}

/// The bytes of a name, or no bytes.
fn text_of(word: Option<&Word>) -> &[u8]
    ensures { result.now ≡ text_of (option_copied word.entry) }
{
    match word {
        Some(name) => name.text.items(),
        None => &[],
    }
}

/// Gives the name that place, if it has none. Fails if memory runs out.
pub(crate) fn put_first(
    alloc: Global,
    names: &mut Index,
    name: &[u8],
    place: u32,
) -> Result<(), NoMemory>
    ensures put { OnOk result (PutsFirst name.now place names.old names.new) }
{
    if names.place(name).is_some() {
        return Ok(());
    }
    let key = name.to_vec(alloc)?;
    names.put(key, place)
}

/// The names of external linkage, with one more, if its linkage is external.
fn with_external_name(
    alloc: Global,
    names: Index,
    name: &[u8],
    place: u32,
    internal: bool,
) -> Result<Index, NoMemory>
    ensures { IfOk result (λ all. Holds internal name.now place names all) }
{
    let mut all = names;
    if !internal {
        put_first(alloc, &mut all, name, place)?;
    }
    Ok(all)
}

/// The names of each unit, with one more of that unit.
fn with_own(
    alloc: Global,
    units: Vec<Index>,
    unit: u32,
    name: &[u8],
    place: u32,
) -> Result<Vec<Index>, NoMemory>
    ensures own { IfOk result (λ all. PutsFirst name.now place (own_names unit units.items) (own_names unit all.items)) }
    ensures others { IfOk result (λ all. (other : ℕ) → ¬ (other ≡ unit) → own_names other all.items ≡ own_names other units.items) }
{
    let mut all = units_to(alloc, units, unit)?;
    put_first(alloc, &mut all[unit as usize], name, place)?;
    Ok(all)
}

/// The names of each unit, of as many units at least.
fn units_to(alloc: Global, units: Vec<Index>, unit: u32) -> Result<Vec<Index>, NoMemory>
    ensures same { IfOk result (λ all. (other : ℕ) → own_names other all.items ≡ own_names other units.items) }
    ensures enough { IfOk result (λ all. unit < length all.items) }
{
    let mut all = units;
    'units: while all.len() <= unit as usize {
        all.push(Index::new(alloc))?;
    }
    Ok(all)
}
