//! The laws.

ghost use Rattle.hs_fitting.specs.Names.{FunctionsAreNamed};
ghost use Rattle.hs_fitting.specs.Units.{FunctionsFit};
ghost use Rattle.hs_fitting.specs.Extending.{BodiesExtend, DeclarationsExtend};
ghost use Rattle.hs_fitting.specs.Functions.{FunctionsStand};

/// A law of typing: in the functions that units define, `break` stands inside a loop or a switch, `continue` inside a loop, and labels in the
/// own block of a switch (X3.159-1989 3.6.1 and 3.6.6).
pub fn what_is_stated_stands()
    ensures { FunctionsStand }
{}

/// A law of typing: what is known after a declaration of file scope or of a block extends what was known before it. Types keep their numbers,
/// names and tags mean what they did or are new in the innermost scope, strings, addresses and calls are noted after the rest, and new
/// variables of a function are of complete types.
pub fn declarations_extend_what_is_known()
    ensures { DeclarationsExtend }
{}

/// A law of typing: the same of the body of a function. The scopes that begin in it have ended.
pub fn bodies_extend_what_is_known()
    ensures { BodiesExtend }
{}

/// A law of typing: each function that units define has its parameters among its variables, which are of complete types, and gives nothing or a
/// value that can be read (X3.159-1989 3.7.1). From the beginning to the end of the units types keep their numbers, and strings, addresses and
/// calls are noted after the rest.
pub fn what_is_defined_fits()
    ensures { FunctionsFit }
{}

/// A law of typing: the functions that units define have the names of the definitions that were known before the first declaration, in the same
/// order. So the number that the calls of a name are bound to is that of a function of this name.
pub fn functions_have_their_names()
    ensures { FunctionsAreNamed }
{}
