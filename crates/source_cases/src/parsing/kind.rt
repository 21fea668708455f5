//! The kinds of cases.

use crate::parsing::spelling::Spelled;
use crate::parsing::{expressions, units};

/// How the text of a case is made, and what is asked of it. `README.md` has the word of each.
#[derive(Clone, Copy)]
pub(crate) enum Kind {
    /// Whether the nesting of the text is within its limit.
    Nesting,
    /// How much is left after an expression whose tokens are the lines of the text.
    Constants,
    /// An answer about the expression at the front of the text.
    Expression(expressions::Asked),
    /// Whether a function whose body is the text is a unit.
    Body,
    /// What the fronts of the text are answered by.
    Fronts,
    /// An answer about the unit that the text is.
    Unit(units::Asked),
}

impl Kind {
    /// The kind that a word of a heading names.
    pub(crate) fn of(word: &str) -> Option<Kind> {
        match word {
            "nesting" => Some(Kind::Nesting),
            "constants" => Some(Kind::Constants),
            "expression" => Some(Kind::Expression(expressions::Asked::Grouping)),
            "columns" => Some(Kind::Expression(expressions::Asked::Columns)),
            "rest" => Some(Kind::Expression(expressions::Asked::Left)),
            "body" => Some(Kind::Body),
            "fronts" => Some(Kind::Fronts),
            "unit" => Some(Kind::Unit(units::Asked::Verdict)),
            "else" => Some(Kind::Unit(units::Asked::Else)),
            "statements" => Some(Kind::Unit(units::Asked::Statements)),
            "specifiers" => Some(Kind::Unit(units::Asked::Specifiers)),
            "again" => Some(Kind::Unit(units::Asked::Spelled(Spelled::Again))),
            "spelled" => Some(Kind::Unit(units::Asked::Spelled(Spelled::Texts))),
            "lines" => Some(Kind::Unit(units::Asked::Spelled(Spelled::Lines))),
            "spelled-count" => Some(Kind::Unit(units::Asked::Spelled(Spelled::Count))),
            _ => None,
        }
    }
}
