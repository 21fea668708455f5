//! Bodies that are complete, and may be one with that of another unit.

ghost use Rattle.std.specs.Prelude.{◌≡◌, Some};
ghost use Rattle.hs_typer.specs.Origins.{joined, closed, fits_first};
ghost use Rattle.hs_typer.specs.Steps.{Steps};

use crate::agreement::{first_name, tags_agree};
use crate::origins::Brace;
use crate::{Origins, Tag, TypeError, Typer, copied};
use hs_tokens::{Origin, Place};
use hs_types::Types;
use std::alloc::Global;

/// The body of a struct or an enumeration is complete. It is the first one at its brace, or is one with the first. Refused at its
/// brace if they differ.
pub(crate) fn closed(alloc: Global, typer: &mut Typer, at: Place, it: Tag) -> Result<(), TypeError>
    ensures { Steps (λ it. it) typer.new (closed at it typer.old) result }
{
    match at.origin {
        Origin::Plain => {
            let brace = Brace::of(at, typer.origins.times_at(at));
            match typer.origins.firsts.get(brace) {
                Some(first) => joined(alloc, typer, at, it, brace, first),
                None => {
                    typer.origins.meet(alloc, at, it, brace)?;
                    typer.origins.firsts.put(brace, it)?;
                    Ok(())
                }
            }
        }
        Origin::Macro => {
            typer.origins.meet_nowhere(alloc, it)?;
            Ok(())
        }
    }
}

/// A body that is one with the first one at its brace.
fn joined(
    alloc: Global,
    typer: &mut Typer,
    at: Place,
    it: Tag,
    brace: Brace,
    first: Tag,
) -> Result<(), TypeError>
    ensures { Steps (λ it. it) typer.new (joined at it brace (Some first) typer.old) result }
{
    typer.origins.meet(alloc, at, it, brace)?;
    if !tags_agree(&typer.types, &typer.origins, first, it) {
        let name = copied(alloc, first_name(&typer.types, it))?;
        return Err(TypeError::Clash(at, name));
    }
    Ok(())
}

/// Whether the body of the struct of that number is one with the first one at its brace, by what is known here. It was one when it was
/// complete, but tags that its members name may have got their bodies since.
///
/// Example: `struct B; struct A { struct B *b; };` of a header, and then two units with two bodies of `struct B`.
pub fn fits_first(types: &Types, origins: &Origins, number: u32) -> bool
    ensures { result ≡ fits_first types.now origins.now number }
{
    match origins.struct_brace(number) {
        Some(brace) => match origins.firsts.get(brace) {
            Some(first) => tags_agree(types, origins, first, Tag::Struct(number)),
            None => true,
        },
        None => true,
    }
}
