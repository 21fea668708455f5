//! The conditional sections that are open.

ghost use Rattle.std.specs.Prelude.{◌≡◌, ◌∷◌, [], List, OnOk, IfSome, IfNone};
ghost use Rattle.hs_directives.specs.Sections.{is_active, open_at};
ghost use Rattle.hs_directives.specs.declared.section.Section.{Section};

use crate::section::Section;
use hs_base::Pos;
use std::alloc::{AllocError, Global};
use std::marker::Model;

/// The conditional sections that are open. Contracts see the innermost first.
#[derive(Drop)]
pub(crate) struct OpenSections {
    vec: Vec<Section>,
}

impl Model for OpenSections {
    ghost use Rattle.std.specs.Prelude.{List, reverse};
    ghost use Rattle.hs_directives.specs.declared.section.Section.{Section};

    ghost Value = { List Section };

    ghost view = { λ sections. reverse sections.vec.items };
}

impl OpenSections {
    /// None.
    pub(crate) fn new(alloc: Global) -> OpenSections
        ensures { result ≡ [] }
    {
        OpenSections {
            vec: Vec::new(alloc),
        }
    }

    /// Whether the text here is kept.
    pub(crate) fn is_active(&self) -> bool
        ensures { result ≡ is_active self.now }
    {
        match self.vec.last() {
            None => true,
            Some(section) => section.kept,
        }
    }

    /// Where the outermost one begins.
    #[tactic(auto, using(crate::proofs::Nesting::open_at_first))]
    pub(crate) fn open_at(&self) -> Option<Pos>
        ensures { result ≡ open_at self.now }
    {
        let (section, _) = self.vec.split_first()?;
        Some(section.pos)
    }

    /// Opens one.
    pub(crate) fn push(&mut self, section: Section) -> Result<(), AllocError>
        ensures { OnOk result (self.new ≡ section ∷ self.old) }
    {
        self.vec.push(section)?;
        Ok(())
    }

    /// Takes the innermost one.
    pub(crate) fn pop(&mut self) -> Option<Section>
        ensures some { IfSome result (λ section. self.old ≡ section ∷ self.new) }
        ensures none { IfNone result (self.old ≡ []) }
    {
        self.vec.pop()
    }
}
