//! Questions about types.

ghost use Rattle.std.specs.Prelude.{◌≡◌};
ghost use Rattle.hs_linkage.specs.Externals.{agrees_in};
ghost use Rattle.hs_linkage.specs.Linkage.{is_function, agrees_if, composite_of};
ghost use Rattle.hs_operand_types.specs.Types.{designates, is_open};
ghost use Rattle.hs_types.specs.TypeTables.{is_complete};

use crate::translator::Translator;
use hs_typer::{Origins, agree};
use hs_types::{Row, TypeId, Types};

/// Whether a type is a function.
///
/// Example: `true` for that of `int f(void)`.
pub fn is_function(types: &Types, id: TypeId) -> bool
    ensures { result ≡ is_function types.now id }
{
    match types.row(id) {
        Some(Row::Function { .. }) => true,
        Some(
            Row::Void
            | Row::Integer(_)
            | Row::Pointer(_)
            | Row::Enumeration(_)
            | Row::Struct(_)
            | Row::Array { .. }
            | Row::OpenArray(_),
        )
        | None => false,
    }
}

/// Whether an object can be of the type, or will be once it is complete.
///
/// Example: `false` for `void`.
pub fn designates(types: &Types, id: TypeId) -> bool
    ensures { result ≡ designates types.now id }
{
    match types.row(id) {
        Some(
            Row::Integer(_)
            | Row::Pointer(_)
            | Row::Enumeration(_)
            | Row::Struct(_)
            | Row::Array { .. }
            | Row::OpenArray(_),
        ) => true,
        Some(Row::Void | Row::Function { .. }) | None => false,
    }
}

/// Whether a type is an array whose length is not known.
///
/// Example: `true` for that of `extern int a[]`.
pub fn is_open(types: &Types, id: TypeId) -> bool
    ensures { result ≡ is_open types.now id }
{
    match types.row(id) {
        Some(Row::OpenArray(_)) => true,
        Some(
            Row::Void
            | Row::Integer(_)
            | Row::Pointer(_)
            | Row::Enumeration(_)
            | Row::Struct(_)
            | Row::Array { .. }
            | Row::Function { .. },
        )
        | None => false,
    }
}

/// Whether a type is complete (X3.159-1989 3.1.2.5).
///
/// Example: `false` for a struct without its body.
pub fn is_complete(types: &Types, id: TypeId) -> bool
    ensures { result ≡ is_complete types.now id }
{
    types.layout(id).is_some()
}

/// The type of two declarations of one object or function (3.1.2.6): of two arrays the one whose length is known.
pub(crate) fn composite_of(types: &Types, old: Option<TypeId>, new: TypeId) -> TypeId
    ensures { result ≡ composite_of types.now old new }
{
    match old {
        Some(old) => { if is_open(types, old) { new } else { old } }
        None => new,
    }
}

/// Whether a type is compatible with one that is there.
pub(crate) fn agrees(types: &Types, origins: &Origins, id: TypeId, old: Option<TypeId>) -> bool
    ensures { result ≡ agrees_in types.now origins.now id old }
{
    match old {
        Some(old) => agree(types, origins, old, id),
        None => false,
    }
}

/// Whether a type is compatible with another one, if that is there.
pub(crate) fn agrees_if(m: &Translator, id: TypeId, old: Option<TypeId>) -> bool
    ensures { result ≡ agrees_if m.now id old }
{
    match old {
        Some(_) => agrees(&m.typer.types, &m.typer.origins, id, old),
        None => true,
    }
}
