//! A law of constant expressions, proved and without code.

ghost use Rattle.hs_operand_types.specs.Folding.{ConstantsAreFolded};

/// A law on constants (X3.159-1989 3.4): exactly the integral constant expressions have a value, which is that of the arithmetic of
/// `hs_constants`, and they have no other one.
pub fn constants_are_folded()
    ensures { ConstantsAreFolded }
{}
