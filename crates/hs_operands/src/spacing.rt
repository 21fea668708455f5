//! Pointers and numbers that are added (X3.159-1989 3.3.2.1 and 3.3.6).

ghost use Rattle.std.specs.Prelude.{◌≡◌};
ghost use Rattle.hs_operands.specs.Objects.{spacing, spacing_by};
ghost use Rattle.hs_tree.specs.Kinds.{pointed};

use hs_operand_types::{number_kind, pointed};
use hs_types::{TypeId, Types};

/// What a pointer steps over: the type of the objects, the size of one, and whether the pointer is the left operand.
#[derive(Clone, Copy)]
pub(crate) struct Spacing {
    pub(crate) of: TypeId,
    pub(crate) size: u32,
    pub(crate) pointer_first: bool,
}

/// What the pointer steps over, if one operand is a number and the other a pointer to a complete type.
pub(crate) fn spacing_of(types: &Types, left: TypeId, right: TypeId) -> Option<Spacing>
    ensures { result ≡ spacing types.now left right }
{
    if number_kind(types, right).is_some() {
        spacing_by(types, true, left)
    } else if number_kind(types, left).is_some() {
        spacing_by(types, false, right)
    } else {
        None
    }
}

/// What the pointer steps over, if it points to a complete type.
fn spacing_by(types: &Types, pointer_first: bool, pointer: TypeId) -> Option<Spacing>
    ensures { result ≡ spacing_by types.now pointer_first (pointed types.now pointer) }
{
    let of = pointed(types, pointer)?;
    let layout = types.layout(of)?;
    Some(Spacing {
        of,
        size: layout.size,
        pointer_first,
    })
}
