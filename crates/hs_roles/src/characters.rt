//! The characters of the input and of the output.

ghost use Rattle.std.specs.Prelude.{◌≡◌};
ghost use Rattle.hs_meaning.specs.Roles.{later, next_byte};
ghost use Rattle.hs_meaning.specs.Values.{number};
ghost use Rattle.hs_roles.specs.Parts.{puts};
ghost use Rattle.hs_state.specs.Machines.{Does, Keeps, machine_of};

use hs_state::Machine;
use hs_values::{Halt, Value};

/// Takes the next byte of the input. Returns EOF at its end.
pub(crate) fn next(machine: &mut Machine) -> Value
    ensures value { result ≡ number (next_byte machine.old.bytes.now) }
    ensures rest { machine_of machine.new ≡ record (machine_of machine.old) { bytes = later machine.old.bytes.now } }
    ensures keeps { Keeps machine.old machine.new }
{
    match machine.bytes.split_first() {
        Some((byte, rest)) => {
            machine.bytes = rest;
            Value::number(u32::from(*byte))
        }
        None => Value::number(u32::MAX),
    }
}

/// Adds the low byte of a number to the output, and returns it.
///
/// # Errors
///
/// Those of a value that is no number, and `NoMemory`.
pub(crate) fn put(machine: &mut Machine, byte: &Value) -> Result<Value, Halt>
    ensures does { Does (puts byte.now (machine_of machine.old)) (machine_of machine.new) result }
    ensures keeps { Keeps machine.old machine.new }
{
    let low = (byte.bits()? % 256) as u8;
    machine.output.push(low)?;
    Ok(Value::number(u32::from(low)))
}
