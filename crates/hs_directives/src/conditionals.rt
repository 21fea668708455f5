//! The directives of sections: `#if` to `#endif` (X3.159-1989 3.8.1).

ghost use Rattle.std.specs.Prelude.{◌≡◌};
ghost use Rattle.hs_directives.specs.Directives.{name_answered, answered_by, if_done, elif_done, else_done, endif_done};
ghost use Rattle.hs_directives.specs.Ahead.{seen_name, turn_of};
ghost use Rattle.hs_directives.specs.declared.state.State.{State};
ghost use Rattle.hs_directives.specs.Outcomes.{Gives};

use crate::condition::{Answered, condition_of};
use crate::define::lone_name;
use crate::error::ReadError;
use crate::keyword::Keyword;
use crate::open_sections::OpenSections;
use crate::section::Section;
use crate::state::State;
use hs_base::Pos;
use hs_tokens::Token;
use std::alloc::Global;

/// Whether a name is defined, or is not.
fn name_answered(
    state: &State,
    pos: Pos,
    wanted: bool,
    name: Option<&[u8]>,
) -> Result<Answered, ReadError>
    ensures { Gives (λ answered. answered)
        (name_answered state.now.unit.macros state.now.progress.left pos wanted (seen_name name.entry)) result }
{
    match name {
        Some(name) => Ok(Answered {
            holds: state.unit.macros.is_defined(name) == wanted,
            left: state.progress.left,
        }),
        None => Err(ReadError::BadDirective(pos)),
    }
}

/// The condition of a directive that is reached (X3.159-1989 3.8.1).
fn answered_by(
    alloc: Global,
    keyword: Keyword,
    hash: &Token,
    line: &[Token],
    state: &State,
) -> Result<Answered, ReadError>
    ensures { Gives (λ answered. answered) (answered_by keyword hash.now line.now state.now) result }
{
    match keyword {
        Keyword::Ifdef => name_answered(state, hash.pos, true, lone_name(line)),
        Keyword::Ifndef => name_answered(state, hash.pos, false, lone_name(line)),
        _ => condition_of(
            alloc,
            &state.unit.macros,
            state.progress.left,
            hash.pos,
            line,
        ),
    }
}

/// A section begins (X3.159-1989 3.8.1). In a group that is skipped no condition is reached.
pub(crate) fn if_done(
    alloc: Global,
    keyword: Keyword,
    hash: &Token,
    line: &[Token],
    sections: &mut OpenSections,
    state: &mut State,
) -> Result<(), ReadError>
    ensures gives { Gives (λ _. turn_of sections.new state.new)
        (if_done keyword hash.now line.now sections.old state.old) result }
    ensures files_stay { state.new.progress.files ≡ state.old.progress.files }
{
    if !sections.is_active() {
        sections.push(Section::skipped(hash.pos))?;
        return Ok(());
    }
    let answered = answered_by(alloc, keyword, hash, line, state)?;
    sections.push(Section::opened(hash.pos, answered.holds))?;
    state.progress.left = answered.left;
    Ok(())
}

/// An `#elif`, which has an `#if` before it, and no `#else` (X3.159-1989 3.8.1). After a group that was kept its condition is
/// not reached.
pub(crate) fn elif_done(
    alloc: Global,
    hash: &Token,
    line: &[Token],
    sections: &mut OpenSections,
    state: &mut State,
) -> Result<(), ReadError>
    ensures gives { Gives (λ _. turn_of sections.new state.new)
        (elif_done hash.now line.now sections.old state.old) result }
    ensures files_stay { state.new.progress.files ≡ state.old.progress.files }
{
    let Some(section) = sections.pop() else {
        return Err(ReadError::BadDirective(hash.pos));
    };
    if !section.reached {
        sections.push(section)?;
        return Ok(());
    }
    if section.closed {
        return Err(ReadError::BadDirective(hash.pos));
    }
    if section.done {
        sections.push(section.passed_over())?;
        return Ok(());
    }
    let answered = answered_by(alloc, Keyword::Elif, hash, line, state)?;
    sections.push(section.elifed(answered.holds))?;
    state.progress.left = answered.left;
    Ok(())
}

/// An `#else`, which has an `#if` before it, and no other `#else` (X3.159-1989 3.8.1).
pub(crate) fn else_done(hash: &Token, sections: &mut OpenSections) -> Result<(), ReadError>
    ensures { (state : State) → Gives (λ _. turn_of sections.new state) (else_done hash.now sections.old state) result }
{
    let Some(section) = sections.pop() else {
        return Err(ReadError::BadDirective(hash.pos));
    };
    if !section.reached {
        sections.push(section)?;
        return Ok(());
    }
    if section.closed {
        return Err(ReadError::BadDirective(hash.pos));
    }
    sections.push(section.elsed())?;
    Ok(())
}

/// The section ends (X3.159-1989 3.8.1).
pub(crate) fn endif_done(hash: &Token, sections: &mut OpenSections) -> Result<(), ReadError>
    ensures { (state : State) → Gives (λ _. turn_of sections.new state) (endif_done hash.now sections.old state) result }
{
    match sections.pop() {
        Some(_) => Ok(()),
        None => Err(ReadError::BadDirective(hash.pos)),
    }
}
