//! Why a program has no code.

ghost use Rattle.std.specs.Prelude.{◌≡◌};
ghost use Rattle.hs_lower.specs.Lowered.{by_end};

use hs_base::{Limit, LimitKind};
use hs_lower_expressions::EmitEnd;

/// Why a program has no code.
#[derive(Clone, Copy, Debug, PartialEq, Eq)]
pub enum LowerEnd {
    /// The operations of all functions would be more than 1000000. The limit is `Ops`.
    Limit(Limit),
    /// Memory ran out.
    NoMemory,
}

impl LowerEnd {
    /// The end of a program whose emitting stopped so.
    pub(crate) fn of(why: EmitEnd) -> LowerEnd
        ensures { result ≡ by_end why }
    {
        match why {
            EmitEnd::Limit => LowerEnd::Limit(LimitKind::Ops.passed()),
            EmitEnd::NoMemory => LowerEnd::NoMemory,
        }
    }
}
