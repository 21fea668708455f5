//! The line that a plain routine puts out.

ghost use Rattle.std.specs.Prelude.{◌≡◌, ◌++◌, OnOk};
ghost use Rattle.hs_meaning.specs.Plain.{decimal_of, line_of, word_of, words_of};

use crate::types::is_signed;
use hs_base::NoMemory;
use hs_types::{TypeId, Types};
use hs_values::Value;
use itoa::Buffer;

/// Writes a number in decimal, with its sign if it is one of a type with a sign.
fn put_decimal(output: &mut Vec<u8>, signed: bool, bits: u32) -> Result<(), NoMemory>
    ensures { OnOk result (output.new.items ≡ output.old.items ++ decimal_of signed bits) }
{
    let mut buffer = Buffer::new();
    let text = if signed {
        buffer.format(bits.cast_signed())
    } else {
        buffer.format(bits)
    };
    output.extend_from_slice(text.as_bytes())?;
    Ok(())
}

/// Writes a space and the number, if the argument is one.
fn put_word(output: &mut Vec<u8>, types: &Types, id: TypeId, value: &Value) -> Result<(), NoMemory>
    ensures { OnOk result (output.new.items ≡ output.old.items ++ word_of types.now id value.now) }
{
    let Ok(bits) = value.bits() else {
        return Ok(());
    };
    output.push(b' ')?;
    put_decimal(output, is_signed(types, id), bits)
}

/// Writes all numbers, each by the type of its parameter.
fn put_words(
    output: &mut Vec<u8>,
    types: &Types,
    ids: &[TypeId],
    values: &[Value],
) -> Result<(), NoMemory>
    ensures { OnOk result (output.new.items ≡ output.old.items ++ words_of types.now ids.now values.now) }
{
    'words: for (id, value) in ids.iter().zip(values) {
        put_word(output, types, *id, value)?;
    }
    Ok(())
}

/// Writes the line of a call: the name of the routine and its numbers.
///
/// Example: `MoveTo 10 -3` and a line feed.
pub(crate) fn put_line(
    output: &mut Vec<u8>,
    name: &[u8],
    types: &Types,
    ids: &[TypeId],
    values: &[Value],
) -> Result<(), NoMemory>
    ensures { OnOk result (output.new.items ≡ output.old.items ++ line_of name.now types.now ids.now values.now) }
{
    output.extend_from_slice(name)?;
    put_words(output, types, ids, values)?;
    output.push(b'\n')?;
    Ok(())
}
