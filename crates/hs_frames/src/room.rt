//! Whether there is room for a call.

ghost use Rattle.std.specs.Prelude.{◌≡◌, length, min};
ghost use Rattle.hs_meaning.specs.Frames.{has_frame};
ghost use Rattle.hs_meaning.specs.Machine.{bytes_where, is_automatic};
ghost use Rattle.hs_meaning.specs.Objects.{objects_for};
ghost use Rattle.hs_state.specs.Machines.{machine_of};

use hs_state::{Machine, Setting};
use hs_tree::VariableDecl;

/// The most calls at once.
const MOST_FRAMES: u32 = 10_000;

/// What the objects of a call take.
#[derive(Clone, Copy)]
struct Room {
    /// Their bytes, or the greatest number if there are more.
    bytes: usize,
    /// How many there are.
    count: usize,
}

/// What the objects of these variables take.
#[tactic(auto)]
fn room_for(setting: &Setting, variables: &[VariableDecl]) -> Room
    ensures bytes { result.bytes ≡ min (bytes_where is_automatic (objects_for setting.now.types.now variables.now)) 18446744073709551615 }
    ensures count { result.count ≡ length (objects_for setting.now.types.now variables.now) }
{
    let mut bytes: usize = 0;
    let mut count = 0;
    'variables: for variable in variables {
        if !variable.is_slot(setting.types) {
            bytes = bytes.saturating_add(setting.size_of(variable.type_id) as usize);
            count += 1;
        }
    }
    Room { bytes, count }
}

/// Whether the machine has a frame for a call with these variables, and room for their objects.
#[tactic(auto)]
pub(crate) fn has_frame(setting: &Setting, machine: &Machine, variables: &[VariableDecl]) -> bool
    ensures { result ≡ has_frame (objects_for setting.now.types.now variables.now) (machine_of machine.now) }
{
    let room = room_for(setting, variables);
    machine.frames < MOST_FRAMES && machine.objects.has_room_for_call(room.bytes, room.count)
}
