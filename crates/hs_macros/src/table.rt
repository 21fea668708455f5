//! The table of the macros that are defined, and their numbers.

ghost use Rattle.std.specs.Prelude.{◌≡◌, IfOk, IfErr};
ghost use Rattle.hs_macros.specs.Numbers.{IsNumbered};
ghost use Rattle.hs_macros.specs.declared.error.MacroError.TheVariants.{NoMemory as no_memory};

use crate::definition::Definition;
use crate::error::MacroError;
use indexmap::IndexMap;

/// The definitions by name. Their order stays the same while none is added or removed.
pub(crate) type Table = IndexMap<Vec<u8>, Definition>;

/// A definition, and the number of its macro.
#[derive(Drop)]
pub(crate) struct Numbered<'a> {
    /// The index in the table.
    pub(crate) number: u32,
    pub(crate) definition: &'a Definition,
}

/// Looks up the name's definition, and its number. Refused only if the number does not fit, which takes 2^32 definitions.
pub(crate) fn look_up<'a>(table: &'a Table, name: &[u8]) -> Result<Option<Numbered<'a>>, MacroError>
    ensures found { IfOk result (IsNumbered table.now.entries name.now) }
    ensures refused { IfErr result (λ error. error ≡ no_memory) }
{
    let Some((index, _, definition)) = table.get_full(name) else {
        return Ok(None);
    };
    let Ok(number) = u32::try_from(index) else {
        return Err(MacroError::NoMemory);
    };
    Ok(Some(Numbered { number, definition }))
}
