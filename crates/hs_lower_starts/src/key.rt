//! What a constant and the scalar that it is for have in common.

ghost use Rattle.std.specs.Prelude.{◌≡◌};
ghost use Rattle.hs_scalars.specs.Left.{of_scalar};
ghost use Rattle.hs_lower_starts.specs.Keys.{key_of_scalar, key_of_part};

use hs_scalars::Scalar;
use hs_tree::Part;

/// What a constant and the scalar that it is for have in common: the byte, and the number of the type.
#[derive(Clone, Copy, PartialEq, Eq, Hash)]
pub(crate) struct Key {
    offset: u32,
    number: u32,
}

impl Key {
    /// That of a scalar.
    pub(crate) fn of_scalar(its: Scalar) -> Key
        ensures { result ≡ key_of_scalar (of_scalar its) }
    {
        Key {
            offset: its.offset,
            number: its.type_id.number,
        }
    }

    /// That of a constant.
    pub(crate) fn of_part(part: Part) -> Key
        ensures { result ≡ key_of_part part }
    {
        Key {
            offset: part.offset,
            number: part.type_id.number,
        }
    }
}
