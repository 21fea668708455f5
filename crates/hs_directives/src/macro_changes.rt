//! The changes of macros, as lists.

ghost use Rattle.std.specs.Prelude.{◌≡◌, ◌++◌, ◌∷◌, [], List, OnOk};
ghost use Rattle.hs_directives.specs.declared.source.MacroChange.{MacroChange};

use crate::source::MacroChange;
use std::alloc::AllocError;
use std::marker::Model;

/// The changes of macros in a unit.
#[derive(Drop)]
pub struct MacroChanges {
    vec: Vec<MacroChange>,
}

impl Model for MacroChanges {
    ghost Value = { List MacroChange };

    ghost view = { λ changes. changes.vec.items };
}

impl MacroChanges {
    /// The list of these items. Takes no memory.
    pub fn from_vec(items: Vec<MacroChange>) -> MacroChanges
        ensures { result ≡ items.items }
    {
        MacroChanges { vec: items }
    }

    /// One more item.
    pub(crate) fn push(&mut self, item: MacroChange) -> Result<(), AllocError>
        ensures { OnOk result (self.new ≡ self.old ++ item ∷ []) }
    {
        self.vec.push(item)?;
        Ok(())
    }

    /// Lends the items.
    pub fn items(&self) -> &[MacroChange]
        ensures { result.now ≡ self.now }
    {
        self.vec.as_slice()
    }
}

/// The changes of macros in each unit.
#[derive(Drop)]
pub struct UnitChanges {
    vec: Vec<MacroChanges>,
}

impl Model for UnitChanges {
    ghost Value = { List (List MacroChange) };

    ghost view = { λ units. units.vec.items };
}

impl UnitChanges {
    /// The list of these items. Takes no memory.
    pub fn from_vec(items: Vec<MacroChanges>) -> UnitChanges
        ensures { result ≡ items.items }
    {
        UnitChanges { vec: items }
    }

    /// Lends the items.
    pub fn items(&self) -> &[MacroChanges]
        ensures { result.now ≡ self.now }
    {
        self.vec.as_slice()
    }
}
