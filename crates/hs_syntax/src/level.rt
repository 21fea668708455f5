//! The deepeners on one level of nesting.

ghost use Rattle.std.specs.Prelude.{◌≡◌, ◌≤◌, List, ◌∷◌, []};
ghost use Rattle.std.specs.List.{filter};
ghost use Rattle.hs_syntax.specs.Counts.{counts, deepeners_on, with_deepener, meaning, Turns};
ghost use Rattle.hs_syntax.specs.Nesting.{Deepener as Meant, goes_on, ended, stays_at_comma};

use crate::deepener::{Deepener, is_word};
use hs_tokens::SourceToken;

/// How many deepeners of each kind stand on a level. No rule asks in which order.
#[derive(Clone, Copy)]
pub(crate) struct Level {
    pub(crate) dos: u16,
    /// The other keywords.
    pub(crate) keywords: u16,
    pub(crate) queries: u16,
    pub(crate) others: u16,
}

impl Level {
    /// A level with no deepeners.
    pub(crate) fn bare() -> Level
        ensures { result ≡ counts [] }
    {
        Level {
            dos: 0,
            keywords: 0,
            queries: 0,
            others: 0,
        }
    }

    /// The number of its deepeners.
    pub(crate) fn deepeners(self) -> u64
        ensures { result ≡ deepeners_on self }
    {
        u64::from(self.dos)
            + u64::from(self.keywords)
            + u64::from(self.queries)
            + u64::from(self.others)
    }

    /// The level with one more deepener.
    pub(crate) fn with(self, deepener: Deepener) -> Level
        requires { deepeners_on self ≤ 256 }
        ensures { result ≡ with_deepener (meaning deepener) self }
    {
        match deepener {
            Deepener::Do => Level {
                dos: self.dos + 1,
                ..self
            },
            Deepener::Keyword => Level {
                keywords: self.keywords + 1,
                ..self
            },
            Deepener::Query => Level {
                queries: self.queries + 1,
                ..self
            },
            Deepener::Other => Level {
                others: self.others + 1,
                ..self
            },
        }
    }

    /// The level after a `,`.
    #[tactic(auto, using(crate::proofs::Counting::stays_turns))]
    pub(crate) fn behind_comma(self) -> Level
        ensures turns { Turns self result (filter stays_at_comma) }
        ensures fewer { deepeners_on result ≤ deepeners_on self }
    {
        Level { others: 0, ..self }
    }

    /// Whether the statement that ends there goes on.
    #[tactic(auto, using(crate::proofs::Counting::list_any_dos))]
    fn goes_on(self, rest: &[SourceToken]) -> bool
        ensures { (deepeners : List Meant) → self ≡ counts deepeners → result ≡ goes_on deepeners rest.now }
    {
        match rest.first() {
            None => false,
            Some(next) => is_word(b"else", next) || (is_word(b"while", next) && self.dos > 0),
        }
    }

    /// The level after a statement's end, if these tokens follow.
    #[tactic(auto, using(crate::proofs::Counting::going_turns, crate::proofs::Counting::over_turns))]
    pub(crate) fn ended(self, rest: &[SourceToken]) -> Level
        ensures turns { Turns self result (λ deepeners. ended deepeners rest.now) }
        ensures fewer { deepeners_on result ≤ deepeners_on self }
    {
        if self.goes_on(rest) {
            Level {
                queries: 0,
                others: 0,
                ..self
            }
        } else {
            Level::bare()
        }
    }
}
