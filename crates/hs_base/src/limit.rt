//! The limits, with their numbers and words.

ghost use Rattle.std.specs.Prelude.{◌≡◌, codes};
ghost use Rattle.hs_base.specs.Limit.{number_of, word_of};

/// A quantity that has a limit. `docs/ARCHITECTURE.md` says what each one counts.
#[derive(Clone, Copy, Debug, PartialEq, Eq)]
pub enum LimitKind {
    Files,
    FileBytes,
    Scanned,
    Replacements,
    Tokens,
    Depth,
    Objects,
    Ops,
    Names,
    Pairs,
    PathSteps,
    Report,
    Output,
    Script,
}

impl LimitKind {
    /// The number that the quantity may reach and not pass.
    ///
    /// Example: 256 for `Depth`.
    pub fn number(self) -> u64
        ensures { result ≡ number_of self }
    {
        match self {
            LimitKind::Files => 256,
            LimitKind::FileBytes => 4_194_304,
            LimitKind::Scanned => 4_000_000,
            LimitKind::Replacements => 1_000_000,
            LimitKind::Tokens => 4_000_000,
            LimitKind::Depth => 256,
            LimitKind::Objects => 16_777_216,
            LimitKind::Ops => 1_000_000,
            LimitKind::Names => 64,
            LimitKind::Pairs => 4_000_000,
            LimitKind::PathSteps => 1_000_000,
            LimitKind::Report => 16_777_216,
            LimitKind::Output => 16_777_216,
            LimitKind::Script => 4_000_000,
        }
    }

    /// The word that a report names the kind by.
    pub fn word(self) -> &'static str
        ensures { result.now ≡ word_of self }
    {
        match self {
            LimitKind::Files => "Files",
            LimitKind::FileBytes => "FileBytes",
            LimitKind::Scanned => "Scanned",
            LimitKind::Replacements => "Replacements",
            LimitKind::Tokens => "Tokens",
            LimitKind::Depth => "Depth",
            LimitKind::Objects => "Objects",
            LimitKind::Ops => "Ops",
            LimitKind::Names => "Names",
            LimitKind::Pairs => "Pairs",
            LimitKind::PathSteps => "PathSteps",
            LimitKind::Report => "Report",
            LimitKind::Output => "Output",
            LimitKind::Script => "Script",
        }
    }

    /// The limit that the quantity passed.
    pub fn passed(self) -> Limit
        ensures kind { result.kind ≡ self }
        ensures reached { result.reached ≡ number_of self }
    {
        Limit {
            kind: self,
            reached: self.number(),
        }
    }
}

/// A limit that was passed.
#[derive(Clone, Copy, Debug, PartialEq, Eq)]
pub struct Limit {
    pub kind: LimitKind,
    /// The number that the quantity passed.
    pub reached: u64,
}
