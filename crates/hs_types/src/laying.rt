//! How the members of a struct are laid out.

ghost use Rattle.std.specs.Prelude.{◌≡◌, ◌≤◌, ◌<◌, ◌+◌, IfOk, IfErr, IfSome, IfNone, length};
ghost use Rattle.hs_types.specs.Layouts.{most_bytes, placed, struct_size, struct_layout};
ghost use Rattle.hs_types.specs.TypeTables.{body_from, laid, layouts_of};
ghost use Rattle.hs_types.specs.Refusals.{IsRefusal};

use crate::body::Measured;
use crate::layout::MOST_BYTES;
use crate::{Body, Field, Fields, Layout, TypeEnd};
use std::alloc::Global;

/// The body of a struct with these members.
#[tactic(auto, using(crate::proofs::Layouts::laid_too_large))]
pub(crate) fn laid_out(alloc: Global, members: Vec<Measured>) -> Result<Body, TypeEnd>
    ensures body { IfOk result (λ body. laid members.items ≡ Ok body) }
    ensures refused { IfErr result (IsRefusal (laid members.items)) }
{
    let mut fields = Vec::new(alloc);
    let mut end = 0u32;
    let mut characters = true;
    'members: for member in members {
        let Measured {
            name,
            type_id,
            layout,
        } = member;
        let offset = placed(end, layout);
        let Some(next) = ended(offset, layout.size) else {
            return Err(TypeEnd::TooLarge);
        };
        end = next;
        characters = characters && layout.characters;
        fields.push(Field {
            name,
            type_id,
            layout,
            offset,
        })?;
    }
    let size = if characters { end } else { end + end % 2 };
    Ok(Body {
        fields: Fields::indexed(alloc, fields)?,
        layout: Layout {
            size,
            even: true,
            characters,
        },
    })
}

/// Where an object of that layout can lie, from there on.
fn placed(at: u32, layout: Layout) -> u32
    requires { at ≤ most_bytes }
    ensures { result ≡ placed at layout }
{
    if layout.even { at + at % 2 } else { at }
}

/// Where an object ends that lies there, or `None` if that is past the largest size of a type.
fn ended(offset: u32, size: u32) -> Option<u32>
    ensures within { IfSome result (λ end. (end ≡ offset + size) × (end ≤ most_bytes)) }
    ensures past { IfNone result (most_bytes < offset + size) }
{
    let end = offset.checked_add(size)?;
    if end > MOST_BYTES {
        return None;
    }
    Some(end)
}
