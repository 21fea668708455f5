//! Whether tokens nest too deeply.

ghost use Rattle.std.specs.Prelude.{◌≡◌, ◌↔◌, ◌≤◌, ◌<◌, ◌∷◌, [], length, IsTrue};
ghost use Rattle.std.specs.List.{filter};
ghost use Rattle.hs_syntax.specs.Counts.{counts, all_deepeners, meaning, Follows};
ghost use Rattle.hs_syntax.specs.Nesting.{IsShallow, Levels, after, closed, closed_block, ended, deepened, on_level, stays_at_comma};
ghost use Rattle.hs_syntax.specs.Nesting.Deepener.{other};

use crate::deepener::{Deepener, closes, deepener_of, is_punctuator, opens};
use crate::level::Level;
use hs_base::LimitKind;
use hs_tokens::SourceToken;
use std::marker::Model;

/// The most levels around the innermost one. Each has the deepener of a bracket, and there is one deepener too many at most.
const AROUND: usize = 257;

/// The deepeners on the open levels.
#[derive(Drop)]
struct Nesting {
    /// The innermost level.
    level: Level,
    /// The levels around it, the innermost first, after the entries that are free.
    around: [Level; AROUND],
    free: usize,
    /// The number of deepeners on the levels around.
    outside: u64,
}

impl Model for Nesting {
    ghost use Rattle.std.specs.Prelude.{◌≡◌, ◌+◌, ◌≤◌, ◌∷◌, List, drop};
    ghost use Rattle.hs_syntax.specs.Counts.{AllDeepened, all_deepeners, deepeners_on};
    ghost use Rattle.hs_syntax.specs.declared.level.Level.{Level};

    ghost Value = { List Level };

    ghost view = { λ n. n.level ∷ drop n.free n.around };

    ghost invariant = { λ n. (n.free ≤ 257) × AllDeepened (drop n.free n.around)
        × (n.outside ≡ all_deepeners (drop n.free n.around)) × (deepeners_on n.level + n.outside ≤ 257) };
}

impl Nesting {
    /// The outermost level, with no deepeners.
    fn new() -> Nesting
        ensures { result ≡ counts [] ∷ [] }
    {
        Nesting {
            level: Level::bare(),
            around: [Level::bare(); AROUND],
            free: AROUND,
            outside: 0,
        }
    }

    /// The number of deepeners on all levels.
    fn deepeners(&self) -> u64
        ensures { result ≡ all_deepeners self.now }
    {
        self.level.deepeners() + self.outside
    }

    /// A deepener on the innermost level.
    fn deepen(&mut self, deepener: Deepener)
        requires { all_deepeners self.old ≤ 256 }
        ensures { Follows self.old self.new (deepened (Some (meaning deepener))) }
    {
        self.level = self.level.with(deepener);
    }

    /// An opening bracket, and the level that it begins.
    fn open(&mut self)
        requires { all_deepeners self.old ≤ 256 }
        ensures { Follows self.old self.new (λ levels. [] ∷ deepened (Some other) levels) }
    {
        let level = self.level.with(Deepener::Other);
        self.free -= 1;
        self.around[self.free] = level;
        self.outside += level.deepeners();
        self.level = Level::bare();
    }

    /// A closing bracket. Answers whether it ends a level.
    fn close(&mut self) -> bool
        ensures closed { Follows self.old self.new closed }
        ensures ends { IsTrue result ↔ 1 < length self.old }
    {
        if self.free == AROUND {
            return false;
        }
        self.level = self.around[self.free];
        self.free += 1;
        self.outside -= self.level.deepeners();
        true
    }

    /// A `,`.
    fn comma(&mut self)
        ensures { Follows self.old self.new (on_level (filter stays_at_comma)) }
    {
        self.level = self.level.behind_comma();
    }

    /// The end of a statement on the innermost level.
    fn end(&mut self, rest: &[SourceToken])
        ensures { Follows self.old self.new (on_level (λ deepeners. ended deepeners rest.now)) }
    {
        self.level = self.level.ended(rest);
    }

    /// A `}`.
    fn close_block(&mut self, rest: &[SourceToken])
        ensures { Follows self.old self.new (λ levels. closed_block levels rest.now) }
    {
        if self.close() {
            self.end(rest);
        }
    }

    /// A token, if these follow it.
    #[tactic(auto, using(crate::proofs::Opening::deepener_of_open))]
    fn pass(&mut self, source: &SourceToken, rest: &[SourceToken])
        requires { all_deepeners self.old ≤ 256 }
        ensures { Follows self.old self.new (λ levels. after levels source.now rest.now) }
    {
        if is_punctuator(b",", source) {
            self.comma();
        } else if is_punctuator(b";", source) {
            self.end(rest);
        } else if is_punctuator(b"}", source) {
            self.close_block(rest);
        } else if closes(source) {
            self.close();
        } else if opens(source) {
            self.open();
        } else if let Some(deepener) = deepener_of(source) {
            self.deepen(deepener);
        }
    }
}

/// Whether the nesting is at most 256 at every token. It takes no memory.
///
/// Example: 256 open parentheses are shallow, and 257 are not.
pub fn shallow(tokens: &[SourceToken]) -> bool
    ensures { IsTrue result ↔ IsShallow tokens.now }
{
    let mut nesting = Nesting::new();
    let mut left = tokens;
    'tokens: while let Some((source, rest)) = left.split_first() {
        nesting.pass(source, rest);
        if nesting.deepeners() > LimitKind::Depth.number() {
            return false;
        }
        left = rest;
    }
    true
}
