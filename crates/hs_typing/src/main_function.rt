//! The function `main` of a program (X3.159-1989 2.1.2.2).

ghost use Rattle.std.specs.Prelude.{◌≡◌, map, slice_get};
ghost use Rattle.hs_tree.specs.Views.{view_function};
ghost use Rattle.hs_typing.specs.Programs.{main_number, may_be_main};

use hs_linkage::Definitions;
use hs_operand_types::{is_void, number_kind};
use hs_tree::Function;
use hs_types::Types;

/// The number of the function `main` with external linkage, if there is one.
pub(crate) fn main_number(definitions: &Definitions) -> Option<u32>
    ensures { result ≡ main_number definitions.now }
{
    definitions.number_of(false, 0, b"main")
}

/// Whether the function of that number can be `main`: it has no parameters, and gives a number or nothing (own).
pub(crate) fn may_be_main(types: &Types, functions: &[Function], number: u32) -> bool
    ensures { result ≡ may_be_main types.now (slice_get (map view_function functions.now) number) }
{
    match functions.get(number as usize) {
        Some(it) => {
            it.parameters == 0
                && (number_kind(types, it.result).is_some() || is_void(types, it.result))
        }
        None => false,
    }
}
