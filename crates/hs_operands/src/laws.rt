//! A law of the operators, proved and without code.

ghost use Rattle.hs_operands.specs.Laws.{AreTypedAnywhere};

/// A law on the operators: what they make of well-typed operands is well typed, as each typed program keeps it, whatever is typed after
/// them. The operators see the table of types as it is then, and the table of the whole program has grown from it.
pub fn operators_are_typed()
    ensures { AreTypedAnywhere }
{}
