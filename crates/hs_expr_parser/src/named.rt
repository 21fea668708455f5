//! Whether a declarator names something, and whether it is empty.

ghost use Rattle.std.specs.Prelude.{◌≡◌, Bool};
ghost use Rattle.hs_syntax.specs.Phrases.{is_named, names, is_empty};
ghost use Rattle.hs_syntax.specs.Views.{view_declarator, view_direct};

use hs_syntax::{Declarator, Direct};

/// Whether the declarator names something (X3.159-1989 3.5.4, 3.5.5).
pub(crate) fn is_named(declarator: &Declarator) -> bool
    ensures { result ≡ is_named (view_declarator declarator.now) }
{
    names(&declarator.direct)
}

/// Whether what follows the pointers of a declarator names something.
#[cycle(names)]
fn names(direct: &Direct) -> bool
    ensures { result ≡ names (view_direct direct.now) }
{
    match direct {
        Direct::Empty => false,
        Direct::Name(_) => true,
        Direct::Parens(it) => names(&it.direct),
        Direct::Array(base) => names(base),
        Direct::Sized { base, .. } => names(base),
        Direct::Function { base, .. } => names(base),
        Direct::FunctionOfVoid { base, .. } => names(base),
    }
}

/// Whether nothing stands in the declarator (X3.159-1989 3.5.5).
pub(crate) fn is_empty(declarator: &Declarator) -> bool
    ensures { result ≡ is_empty (view_declarator declarator.now) }
{
    declarator.pointers.is_empty() && matches!(declarator.direct, Direct::Empty)
}
