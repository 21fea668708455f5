//! One conditional section.

ghost use Rattle.std.specs.Prelude.{◌≡◌};
ghost use Rattle.hs_directives.specs.Sections.{opened, skipped, elsed, passed_over, elifed};

use hs_base::Pos;

/// A conditional section that is open (X3.159-1989 3.8.1).
#[derive(Clone, Copy)]
pub(crate) struct Section {
    /// The `#` that begins it.
    pub(crate) pos: Pos,
    /// It does not stand in a group that is skipped.
    pub(crate) reached: bool,
    /// Its present group is kept.
    pub(crate) kept: bool,
    /// One of its groups was kept, or none may be.
    pub(crate) done: bool,
    /// Its `#else` stands before.
    pub(crate) closed: bool,
}

impl Section {
    /// A section whose condition was reached, and holds or not.
    pub(crate) fn opened(pos: Pos, holds: bool) -> Section
        ensures { result ≡ opened pos holds }
    {
        Section {
            pos,
            reached: true,
            kept: holds,
            done: holds,
            closed: false,
        }
    }

    /// A section in a group that is skipped.
    pub(crate) fn skipped(pos: Pos) -> Section
        ensures { result ≡ skipped pos }
    {
        Section {
            pos,
            reached: false,
            kept: false,
            done: true,
            closed: false,
        }
    }

    /// After its `#else`.
    pub(crate) fn elsed(self) -> Section
        ensures { result ≡ elsed self }
    {
        Section {
            kept: !self.done,
            done: true,
            closed: true,
            ..self
        }
    }

    /// After an `#elif` whose condition was not reached, since a group was kept.
    pub(crate) fn passed_over(self) -> Section
        ensures { result ≡ passed_over self }
    {
        Section {
            kept: false,
            ..self
        }
    }

    /// After an `#elif` whose condition was reached.
    pub(crate) fn elifed(self, holds: bool) -> Section
        ensures { result ≡ elifed self holds }
    {
        Section {
            kept: holds,
            done: holds,
            ..self
        }
    }
}
