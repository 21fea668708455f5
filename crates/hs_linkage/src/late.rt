//! What is refused at the end of a unit, when its tags have their bodies (own; X3.159-1989 3.1.2.6 and 3.7.2).

ghost use Rattle.std.specs.Prelude.{◌≡◌, ◌+◌, length, option_copied, slice_get, IfOk};
ghost use Rattle.hs_linkage.specs.Externals.{unfit};
ghost use Rattle.hs_linkage.specs.Late.{is_before, earlier, late_clash, unlike, place_of, late_at, late_body, late_object};
ghost use Rattle.hs_linkage.specs.Linkage.{mark_of, kept_count, first_late, rechecked};
ghost use Rattle.hs_linkage.specs.Works.{Works};

use crate::externals::{External, Externals};
use crate::translator::Translator;
use hs_base::{NoMemory, Pos};
use hs_tokens::{Origin, Place};
use hs_typer::{
    Brace, Mark, Origins, Tag, Tentative, TypeError, copied, first_name, fits_first, next_place,
};
use hs_types::Types;
use std::alloc::Global;

/// A refusal at the end of a unit, and where it is.
#[derive(Drop)]
pub struct Late {
    pub mark: Mark,
    pub why: TypeError,
}

/// How many declarations are kept so far.
fn kept_count(m: &Translator) -> Result<u64, NoMemory>
    ensures { IfOk result (λ count. count ≡ kept_count m.now) }
{
    let externals = m.externals.len() as u64;
    let routines = m.routines.len() as u64;
    let tentatives = m.typer.tentatives.len() as u64;
    let both = externals.checked_add(routines).ok_or(NoMemory)?;
    both.checked_add(tentatives).ok_or(NoMemory)
}

/// Where a declaration is that comes next. Fails if there are more than memory could hold.
///
/// Example: at the beginning of a program both numbers are 0.
pub fn mark_of(m: &Translator) -> Result<Mark, NoMemory>
    ensures { IfOk result (λ mark. mark ≡ mark_of m.now) }
{
    Ok(Mark {
        bodies: m.typer.begun.len() as u64,
        declarations: kept_count(m)?,
    })
}

/// Whether the first place of a unit is before the second one.
fn is_before(a: Mark, b: Mark) -> bool
    ensures { result ≡ is_before a b }
{
    a.bodies < b.bodies || (a.bodies == b.bodies && a.declarations < b.declarations)
}

/// The earlier of two refusals.
fn earlier(a: Option<Late>, b: Option<Late>) -> Option<Late>
    ensures { result ≡ earlier a b }
{
    match (a, b) {
        (Some(first), Some(second)) => {
            if is_before(second.mark, first.mark) {
                Some(second)
            } else {
                Some(first)
            }
        }
        (Some(first), None) => Some(first),
        (None, second) => second,
    }
}

/// The refusal of a declaration that does not fit another one.
fn late_clash(alloc: Global, it: Option<&External>) -> Result<Option<Late>, NoMemory>
    ensures { IfOk result (λ late. late ≡ late_clash (option_copied it.entry)) }
{
    match it {
        Some(external) => {
            let name = copied(alloc, external.name.items())?;
            Ok(Some(Late {
                mark: external.mark,
                why: TypeError::Clash(external.at, name),
            }))
        }
        None => Ok(None),
    }
}

/// The first body that is no longer one with the first one at its brace.
fn unlike(types: &Types, origins: &Origins, its: &[u32]) -> Result<Option<(u32, u32)>, NoMemory>
    ensures { IfOk result (λ found. found ≡ unlike types.now origins.now 0 its.now) }
{
    let mut place = 0u32;
    'its: for number in its {
        if !fits_first(types, origins, *number) {
            return Ok(Some((place, *number)));
        }
        place = next_place(place)?;
    }
    Ok(None)
}

/// The place of a brace.
fn place_of(brace: Brace) -> Place
    ensures { result ≡ place_of brace }
{
    Place {
        pos: Pos {
            file: brace.file,
            line: brace.line,
            col: brace.col,
        },
        origin: Origin::Plain,
    }
}

/// The refusal of a body that begins at that brace.
fn late_at(
    alloc: Global,
    types: &Types,
    all: u64,
    it: (u32, u32),
    brace: Option<Brace>,
) -> Result<Option<Late>, NoMemory>
    ensures { IfOk result (λ late. late ≡ late_at types.now all it brace) }
{
    let Some(brace) = brace else {
        return Ok(None);
    };
    let (place, number) = it;
    let name = copied(alloc, first_name(types, Tag::Struct(number)))?;
    Ok(Some(Late {
        mark: Mark {
            bodies: u64::from(place),
            declarations: all,
        },
        why: TypeError::Clash(place_of(brace), name),
    }))
}

/// The refusal of the first body of the unit that is no longer one with the first one at its brace.
fn late_body(alloc: Global, m: &Translator) -> Result<Option<Late>, NoMemory>
    ensures { IfOk result (λ late. late ≡ late_body m.now.typer.types m.now.typer.origins (kept_count m.now)
        (unlike m.now.typer.types m.now.typer.origins 0 m.now.typer.begun)) }
{
    let typer = &m.typer;
    match unlike(&typer.types, &typer.origins, typer.begun.items())? {
        Some(it) => {
            let brace = typer.origins.struct_brace(it.1);
            late_at(alloc, &typer.types, kept_count(m)?, it, brace)
        }
        None => Ok(None),
    }
}

/// The refusal of the first object of file scope whose struct has no body.
fn late_object(types: &Types, its: &[Tentative]) -> Option<Late>
    ensures { result ≡ late_object types.now its.now }
{
    'its: for it in its {
        if types.layout(it.type_id).is_none() {
            return Some(Late {
                mark: it.mark,
                why: TypeError::Untyped(it.at),
            });
        }
    }
    None
}

/// The refusal of the first of these declarations of the unit that does not fit another one.
fn late_external(alloc: Global, m: &Translator, its: &Externals) -> Result<Option<Late>, NoMemory>
    ensures { IfOk result (λ late. late ≡ late_clash (unfit m.now.typer.types m.now.typer.origins its.now its.now)) }
{
    late_clash(alloc, its.unfit(&m.typer.types, &m.typer.origins))
}

/// The first refusal at the end of the unit.
fn first_late(alloc: Global, m: &Translator) -> Result<Option<Late>, NoMemory>
    ensures { IfOk result (λ first. first ≡ first_late m.now) }
{
    let body = late_body(alloc, m)?;
    let external = late_external(alloc, m, &m.externals)?;
    let routine = late_external(alloc, m, &m.routines)?;
    let object = late_object(&m.typer.types, m.typer.tentatives.items());
    Ok(earlier(body, earlier(external, earlier(routine, object))))
}

/// Refuses what is wrong at the end of a unit, now that its tags have got their bodies (own):
/// - a body of a struct that is no longer one with the first one at its brace (`Clash` at the brace, with the name of its first member);
/// - a declaration with external linkage that does not fit another one of its name, in any unit, or one of a function that is bound to a routine
///   (`Clash` at the name). Other declarations with internal linkage are not looked at again: they are in one unit, where a tag is one type
///   before and after its body;
/// - an object of file scope without `extern` and without a value whose struct has no body (`Untyped` at the name; X3.159-1989 3.7.2).
///
/// Only the first one in the text is refused. A body inside a declarator counts as before the name of the declarator.
///
/// Example: `struct S; extern struct S *p; struct S { char b; };` after another unit with another body of `S` and the same `p`.
pub fn rechecked(alloc: Global, m: &Translator) -> Result<(), TypeError>
    ensures { Works (λ it. it) m.now (rechecked m.now) result }
{
    match first_late(alloc, m)? {
        Some(it) => Err(it.why),
        None => Ok(()),
    }
}
