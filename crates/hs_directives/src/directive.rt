//! What a run of text, or a directive that includes no file, does to the sections and the state.

ghost use Rattle.std.specs.Prelude.{◌≡◌, ℕ, List, drop, Option, None, Result};
ghost use Rattle.hs_base.specs.declared.pos.Pos.{Pos};
ghost use Rattle.hs_tokens.specs.declared.token.Token.{Token};
ghost use Rattle.hs_directives.specs.declared.state.State.{State};
ghost use Rattle.hs_directives.specs.declared.error.ReadError.{ReadError};
ghost use Rattle.hs_directives.specs.Directives.{line_done};
ghost use Rattle.hs_directives.specs.Preprocessing.{run_done, directive_done};
ghost use Rattle.hs_directives.specs.Ahead.{turn_of, piece_of, IsInclusion, IsInclusionOf, piece_outcome};
ghost use Rattle.hs_directives.specs.Outcomes.{Gives};

use crate::conditionals::{elif_done, else_done, endif_done, if_done};
use crate::define::{define_done, undef_done};
use crate::error::ReadError;
use crate::keyword::{Keyword, keyword_of};
use crate::open_sections::OpenSections;
use crate::pieces::Part;
use crate::state::State;
use crate::text::text_done;
use hs_base::Pos;
use hs_tokens::Token;
use std::alloc::Global;

/// A run of text, if it is kept.
pub(crate) fn run_done(
    tokens: &[Token],
    sections: &OpenSections,
    state: &mut State,
) -> Result<(), ReadError>
    ensures gives { (enter : Option Pos → Token → List ℕ → State → Result State ReadError)
        → Gives (λ _. state.new) (run_done enter tokens.now sections.now state.old) result }
    ensures files_stay { state.new.progress.files ≡ state.old.progress.files }
{
    if sections.is_active() {
        text_done(tokens, state)
    } else {
        Ok(())
    }
}

/// A directive that neither includes nor belongs to a section, if it is reached.
fn line_done(
    alloc: Global,
    outer: Option<Pos>,
    keyword: Keyword,
    hash: &Token,
    line: &[Token],
    state: &mut State,
) -> Result<(), ReadError>
    ensures gives { Gives (λ _. state.new) (line_done outer keyword hash.now line.now state.old) result }
    ensures files_stay { state.new.progress.files ≡ state.old.progress.files }
{
    match keyword {
        Keyword::Define => define_done(alloc, outer, hash, line, state),
        Keyword::Undef => undef_done(alloc, outer, hash, line, state),
        Keyword::Dropped => Ok(()),
        _ => Err(ReadError::BadDirective(hash.pos)),
    }
}

/// A directive that does not include, or does so in a group that is skipped.
pub(crate) fn directive_done(
    alloc: Global,
    outer: Option<Pos>,
    keyword: Keyword,
    hash: &Token,
    line: &[Token],
    sections: &mut OpenSections,
    state: &mut State,
) -> Result<(), ReadError>
    requires { IsInclusion keyword sections.old → ⊥ }
    ensures gives { (enter : Option Pos → Token → List ℕ → State → Result State ReadError)
        → Gives (λ _. turn_of sections.new state.new) (directive_done enter outer keyword hash.now line.now sections.old state.old) result }
    ensures files_stay { state.new.progress.files ≡ state.old.progress.files }
{
    match keyword {
        Keyword::If | Keyword::Ifdef | Keyword::Ifndef => {
            if_done(alloc, keyword, hash, line, sections, state)
        }
        Keyword::Elif => elif_done(alloc, hash, line, sections, state),
        Keyword::Else => else_done(hash, sections),
        Keyword::Endif => endif_done(hash, sections),
        _ if sections.is_active() => line_done(alloc, outer, keyword, hash, line, state),
        _ => Ok(()),
    }
}

/// The tokens after the keyword of a directive.
fn operands(line: &[Token]) -> &[Token]
    ensures { result.now ≡ drop 1 line.now }
{
    match line {
        [_, behind @ ..] => behind,
        [] => line,
    }
}

/// The `#` of a directive that includes a file here, and the tokens after its keyword.
pub(crate) fn inclusion<'a>(
    part: Part<'a>,
    sections: &OpenSections,
) -> Option<(&'a Token, &'a [Token])>
    ensures { IsInclusionOf part.entry sections.now result }
{
    match part {
        Part::Directive(hash, line)
            if matches!(keyword_of(line), Keyword::Include) && sections.is_active() => {
            Some((hash, operands(line)))
        }
        _ => None,
    }
}

/// A piece of a file that includes no file.
pub(crate) fn piece_done(
    alloc: Global,
    outer: Option<Pos>,
    part: Part<'_>,
    sections: &mut OpenSections,
    state: &mut State,
) -> Result<(), ReadError>
    requires { IsInclusionOf part sections.old None }
    ensures gives { (enter : Option Pos → Token → List ℕ → State → Result State ReadError)
        → Gives (λ _. turn_of sections.new state.new) (piece_outcome enter outer (piece_of part.entry) sections.old state.old) result }
    ensures files_stay { state.new.progress.files ≡ state.old.progress.files }
{
    match part {
        Part::Run(tokens) => run_done(tokens, sections, state),
        Part::Directive(hash, line) => {
            directive_done(
                alloc,
                outer,
                keyword_of(line),
                hash,
                operands(line),
                sections,
                state,
            )
        }
    }
}
