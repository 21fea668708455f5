//! Lists of texts, of file numbers and of tokens.

ghost use Rattle.std.specs.Prelude.{◌≡◌, ◌++◌, List, ℕ, OnOk};
ghost use Rattle.hs_tokens.specs.declared.token.SourceToken.{SourceToken};

use hs_base::Bytes;
use hs_tokens::SourceToken;
use std::alloc::AllocError;
use std::marker::Model;

/// A list of names or texts. Contracts see the items alone: capacity and allocator count for nothing.
#[derive(Drop)]
pub struct Texts {
    vec: Vec<Bytes>,
}

impl Model for Texts {
    ghost Value = { List (List ℕ) };

    ghost view = { λ texts. texts.vec.items };
}

impl Texts {
    /// The list of these items. Takes no memory.
    pub fn from_vec(items: Vec<Bytes>) -> Texts
        ensures { result ≡ items.items }
    {
        Texts { vec: items }
    }

    /// Lends the items.
    pub fn items(&self) -> &[Bytes]
        ensures { result.now ≡ self.now }
    {
        self.vec.as_slice()
    }
}

/// The numbers of files.
#[derive(Drop)]
pub struct FileNumbers {
    vec: Vec<u16>,
}

impl Model for FileNumbers {
    ghost Value = { List ℕ };

    ghost view = { λ numbers. numbers.vec.items };
}

impl FileNumbers {
    /// The list of these items. Takes no memory.
    pub fn from_vec(items: Vec<u16>) -> FileNumbers
        ensures { result ≡ items.items }
    {
        FileNumbers { vec: items }
    }

    /// Lends the items.
    pub fn items(&self) -> &[u16]
        ensures { result.now ≡ self.now }
    {
        self.vec.as_slice()
    }
}

/// The tokens of a unit.
#[derive(Drop)]
pub struct SourceTokens {
    vec: Vec<SourceToken>,
}

impl Model for SourceTokens {
    ghost Value = { List SourceToken };

    ghost view = { λ tokens. tokens.vec.items };
}

impl SourceTokens {
    /// The list of these items. Takes no memory.
    pub fn from_vec(items: Vec<SourceToken>) -> SourceTokens
        ensures { result ≡ items.items }
    {
        SourceTokens { vec: items }
    }

    /// More items after them.
    pub(crate) fn append(&mut self, items: Vec<SourceToken>) -> Result<(), AllocError>
        ensures { OnOk result (self.new ≡ self.old ++ items.items) }
    {
        let mut items = items;
        self.vec.append(&mut items)
    }

    /// Lends the items.
    pub fn items(&self) -> &[SourceToken]
        ensures { result.now ≡ self.now }
    {
        self.vec.as_slice()
    }
}

/// The token lists of units.
#[derive(Drop)]
pub struct UnitTokens {
    vec: Vec<SourceTokens>,
}

impl Model for UnitTokens {
    ghost Value = { List (List SourceToken) };

    ghost view = { λ units. units.vec.items };
}

impl UnitTokens {
    /// The list of these items. Takes no memory.
    pub fn from_vec(items: Vec<SourceTokens>) -> UnitTokens
        ensures { result ≡ items.items }
    {
        UnitTokens { vec: items }
    }

    /// Lends the items.
    pub fn items(&self) -> &[SourceTokens]
        ensures { result.now ≡ self.now }
    {
        self.vec.as_slice()
    }
}
