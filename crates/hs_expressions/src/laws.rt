//! Laws of typing, proved and without code.

ghost use Rattle.hs_expressions.specs.Binding.{TypingBinds};
ghost use Rattle.hs_expressions.specs.Laws.{TypingExtends, TypingIsRight};
ghost use Rattle.hs_expressions.specs.Order.{OperandsAreFirst, ParenthesesChangeNothing};

/// A law on the order of refusals: what an operand is refused for is what the expression is refused for, and the left operand comes first.
pub fn operands_are_first()
    ensures { OperandsAreFirst }
{}

/// A law on parentheses: an expression in them is typed as the expression is, at its place, and so in every larger expression.
pub fn parentheses_change_nothing()
    ensures { ParenthesesChangeNothing }
{}

/// A law of typing: what is known after an expression extends what was known before it. Types keep their numbers, names and tags mean
/// what they did or are new in the innermost scope, and strings, addresses and calls are noted after the rest.
pub fn typing_extends_what_is_known()
    ensures { TypingExtends }
{}

/// A law of typing: what an expression that is evaluated is typed as is well typed, as each typed program keeps it. The program is any
/// one that has the types and the strings that are known after the expression, and the variables that its names mean.
pub fn what_is_typed_is_well_typed()
    ensures { TypingIsRight }
{}

/// A law of typing: what an expression that is evaluated names is there, its calls fit the functions and routines that they are bound
/// to, and what its addresses are taken of is marked, in every program that has what the names mean and what was noted.
pub fn what_is_typed_is_bound()
    ensures { TypingBinds }
{}
