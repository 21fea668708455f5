//! The directives that change macros: `#define` and `#undef` (X3.159-1989 3.8.3).

ghost use Rattle.std.specs.Prelude.{◌≡◌, OnOk};
ghost use Rattle.hs_directives.specs.States.{of_definition};
ghost use Rattle.hs_directives.specs.Directives.{place_of, with_change, name_at, define_done, lone_name, undef_done};
ghost use Rattle.hs_macros.specs.Definitions.{defined};
ghost use Rattle.hs_directives.specs.Ahead.{seen_name};
ghost use Rattle.hs_directives.specs.Outcomes.{Gives, ReadsNone};

use crate::error::{MacroKind, ReadError};
use crate::source::MacroChange;
use crate::state::{State, UnitSoFar};
use hs_base::{Bytes, Pos};
use hs_macros::MacroError;
use hs_tokens::{Token, is_identifier};
use std::alloc::{AllocError, Global};

/// A refusal of a definition, at the `#` of its directive.
fn of_definition(pos: Pos, error: MacroError) -> ReadError
    ensures error { result ≡ of_definition pos error }
    ensures reads_none { ReadsNone result }
{
    match error {
        MacroError::BadMacro => ReadError::Macro(MacroKind::BadMacro, pos),
        MacroError::ArgCount(at) => ReadError::Macro(MacroKind::ArgCount, at),
        MacroError::Limit(limit) => ReadError::Limit(limit),
        MacroError::NoMemory => ReadError::NoMemory,
    }
}

/// The name at the front of a line.
fn name_at(line: &[Token]) -> &[u8]
    ensures { result.now ≡ name_at line.now }
{
    match line {
        [] => b"".as_slice(),
        [name, ..] => name.text.items(),
    }
}

/// One identifier, and nothing else.
pub(crate) fn lone_name(line: &[Token]) -> Option<&[u8]>
    ensures { seen_name result ≡ lone_name line.now }
{
    match line {
        [name] if is_identifier(name) => Some(name.text.items()),
        _ => None,
    }
}

/// Where a change of macros counts as standing: at the root file's outermost open `#include`, if one is open.
pub(crate) fn place_of(outer: Option<Pos>, pos: Pos) -> Pos
    ensures { result ≡ place_of outer pos }
{
    outer.unwrap_or(pos)
}

/// Notes a change of the unit's macros.
fn note(
    alloc: Global,
    unit: &mut UnitSoFar,
    pos: Pos,
    name: &[u8],
    on: bool,
) -> Result<(), AllocError>
    ensures { OnOk result (unit.new ≡ with_change unit.old unit.old.macros pos name.now on) }
{
    let name = Bytes::from_vec(name.to_vec(alloc)?);
    unit.changes.push(MacroChange { pos, name, on })
}

/// A `#define` that is reached (X3.159-1989 3.8.3).
pub(crate) fn define_done(
    alloc: Global,
    outer: Option<Pos>,
    hash: &Token,
    line: &[Token],
    state: &mut State,
) -> Result<(), ReadError>
    ensures gives { Gives (λ _. state.new) (define_done outer hash.now line.now state.old (defined state.old.unit.macros line.now)) result }
    ensures files_stay { state.new.progress.files ≡ state.old.progress.files }
{
    match state.unit.macros.define(line) {
        Ok(()) => {
            let pos = place_of(outer, hash.pos);
            note(alloc, &mut state.unit, pos, name_at(line), true)?;
            Ok(())
        }
        Err(error) => Err(of_definition(hash.pos, error)),
    }
}

/// An `#undef` that is reached: a name that has no definition is ignored (X3.159-1989 3.8.3.5).
pub(crate) fn undef_done(
    alloc: Global,
    outer: Option<Pos>,
    hash: &Token,
    line: &[Token],
    state: &mut State,
) -> Result<(), ReadError>
    ensures gives { Gives (λ _. state.new) (undef_done outer hash.now state.old (lone_name line.now)) result }
    ensures files_stay { state.new.progress.files ≡ state.old.progress.files }
{
    let Some(name) = lone_name(line) else {
        return Err(ReadError::BadDirective(hash.pos));
    };
    state.unit.macros.undef(name);
    note(
        alloc,
        &mut state.unit,
        place_of(outer, hash.pos),
        name,
        false,
    )?;
    Ok(())
}
