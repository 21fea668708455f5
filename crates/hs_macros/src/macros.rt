//! The macros that are defined.

ghost use Rattle.std.specs.Prelude.{◌≡◌, ◌⊎◌, Ok, IfOk, OnOk, IfErr, OnErr, is_some, option_copied};
ghost use Rattle.std.specs.FinMap as map;
ghost use Rattle.hs_macros.specs.Definitions.{defined};
ghost use Rattle.hs_macros.specs.Lines.{defined_by};
ghost use Rattle.hs_macros.specs.Refusals.{IsRefusal};
ghost use Rattle.hs_macros.specs.Replacement.{replaced};

use crate::budget::Budget;
use crate::definition::Definition;
use crate::error::MacroError;
use crate::expansion::replaced_run;
use crate::line::{Line, definition_of};
use crate::table::Table;
use hs_base::NoMemory;
use hs_tokens::{SourceToken, Token};
use indexmap::IndexMap;
use std::alloc::{AllocError, Global};
use std::marker::Model;

/// The macros that are defined.
#[derive(Drop)]
pub struct Macros {
    definitions: Table,
}

impl Model for Macros {
    ghost use Rattle.std.specs.Prelude.{map as map_list, List, ℕ};
    ghost use Rattle.std.specs.FinMap as map;
    ghost use Rattle.std.specs.Ordering.{nat_cmp};
    ghost use Rattle.std.specs.Cmp.Lexicographic.{slice_cmp};
    ghost use Rattle.std.specs.Coded.{coded_list, coded_ℕ, codes};
    ghost use Rattle.hs_macros.specs.declared.definition.Definition.{Definition};

    ghost Value = { map.FinMap (slice_cmp nat_cmp) Definition };

    ghost coded = { map.code (coded_list coded_ℕ) (Prim.hlevel codes) };

    ghost view = { λ m. map.from_entries (map_list (λ e. (e.0.items, e.1)) m.definitions.entries) };
}

impl Macros {
    /// No macros. Takes no memory.
    pub fn new(alloc: Global) -> Result<Macros, NoMemory>
        ensures { result ≡ Ok map.empty }
    {
        Ok(Macros {
            definitions: IndexMap::new(alloc),
        })
    }

    /// Whether the name has a definition.
    pub fn is_defined(&self, name: &[u8]) -> bool
        ensures { result ≡ is_some (map.get self.now name.now) }
    {
        self.definitions.contains_key(name)
    }

    /// Takes the name's definition away, if it has one (X3.159-1989 3.8.3.5).
    ///
    /// Example: after `undef` of `MAX`, the name `MAX` is not defined and is not replaced.
    pub fn undef(&mut self, name: &[u8])
        ensures { self.new ≡ map.remove self.old name.now }
    {
        let _ = self.definitions.swap_remove(name);
    }

    /// Lends the name's definition.
    pub(crate) fn definition<'a>(&'a self, name: &[u8]) -> Option<&'a Definition>
        ensures { option_copied result ≡ map.get self.now name.now }
    {
        self.definitions.get(name)
    }

    /// Takes the definition that the tokens after `define` are (X3.159-1989 3.8.3).
    ///
    /// Example: the tokens of `SQUARE(x) ((x) * (x))` define a macro of one parameter.
    pub fn define(&mut self, line: &[Token]) -> Result<(), MacroError>
        ensures defined { OnOk result (defined self.old line.now ≡ Ok self.new) }
        ensures refused { IfErr result (IsRefusal (defined self.old line.now)) }
        ensures unchanged { OnErr result (self.new ≡ self.old) }
    {
        let alloc = *self.definitions.allocator();
        let Some(line) = definition_of(alloc, line)? else {
            return Err(MacroError::BadMacro);
        };
        match self.definition(line.name) {
            None => {
                self.insert(&line)?;
                Ok(())
            }
            Some(old) if old.is_same(&line) => Ok(()),
            Some(_) => Err(MacroError::BadMacro),
        }
    }

    /// The tokens of a run, replaced, and what is left of the budget taken (X3.159-1989 3.8.3). An invocation that is open at
    /// the end of the run is refused, and so is one with the wrong number of arguments. `left` counts the replacements and the
    /// tokens that they put in place, and not the tokens of the result.
    ///
    /// Example: with the macro `SQUARE(x) ((x) * (x))`, the run `SQUARE(2)` becomes `((2) * (2))`, and one replacement
    /// and its tokens are taken from `left`.
    pub fn expand(&self, run: &[Token], left: &mut Budget) -> Result<Vec<SourceToken>, MacroError>
        ensures replaced { IfOk result (λ tokens. replaced self.now left.old run.now
            ≡ Ok (record { tokens = tokens.items; left = left.new })) }
        ensures refused { IfErr result (IsRefusal (replaced self.now left.old run.now)) }
        ensures unchanged { OnErr result (left.new ≡ left.old) }
    {
        let alloc = *self.definitions.allocator();
        let done = replaced_run(alloc, &self.definitions, run, *left)?;
        *left = done.left;
        Ok(done.tokens)
    }

    /// Puts what the line defines at its name.
    fn insert(&mut self, line: &Line<'_>) -> Result<(), AllocError>
        ensures inserted { OnOk result (self.new ≡ defined_by self.old line.now) }
        ensures unchanged { OnErr result (self.new ≡ self.old) }
    {
        let alloc = *self.definitions.allocator();
        let name = line.name.to_vec(alloc)?;
        let definition = Definition::copied(alloc, line)?;
        self.definitions.insert(name, definition)?;
        Ok(())
    }
}
