//! Definitions of macros, and when two are the same (X3.159-1989 3.8.3).

ghost use Rattle.std.specs.Prelude.{◌≡◌, IfOk, zip};
ghost use Rattle.std.specs.Option.{option_map};
ghost use Rattle.std.specs.List.{list_all};
ghost use Rattle.std.specs.Cmp.Lexicographic.{pointwise};
ghost use Rattle.std.specs.Str.{bytes_eq};
ghost use Rattle.hs_macros.specs.Definitions.{is_same_token, is_same_form, is_same};
ghost use Rattle.hs_macros.specs.Lines.{names_of as names_in_line, form_of as form_in_line, named};
ghost use Rattle.hs_macros.specs.Parts.{IsParts};
ghost use Rattle.hs_macros.specs.Slots.{names_of, tokens_of};

use crate::line::Line;
use crate::slot::{Parameter, Slot, parameters_of, slots_of};
use hs_tokens::{Token, is_same_kind};
use std::alloc::{AllocError, Global};
use std::marker::Model;

/// What stands for a macro. Contracts see its parameters' names and its tokens alone.
#[derive(Drop)]
pub struct Definition {
    /// The parameters of a function-like macro, in order; nothing for an object-like one.
    parameters: Option<Vec<Parameter>>,
    /// The tokens that replace the name.
    body: Vec<Slot>,
}

impl Model for Definition {
    ghost use Rattle.hs_macros.specs.Forms.{Form};

    ghost Value = { Form };

    ghost use Rattle.hs_macros.specs.Slots.{Fits, all_of, form_of};

    ghost view = { λ definition. form_of definition.parameters definition.body.items };

    ghost invariant = { λ definition. Fits (all_of definition.parameters) definition.body.items };
}

/// The parts of a definition, lent by it.
pub(crate) struct Parts<'a> {
    /// The parameters of a function-like macro, in order; nothing for an object-like one.
    pub(crate) parameters: Option<&'a [Parameter]>,
    /// The tokens that replace the name.
    pub(crate) body: &'a [Slot],
}

/// Whether the two tokens have the same kind and the same bytes.
fn is_same_token(old: &Token, new: &Token) -> bool
    ensures { result ≡ is_same_token old.now new.now }
{
    is_same_kind(old.kind, new.kind) && old.text.items() == new.text.items()
}

/// Whether each token is the same as the one in its place, as far as both rows go.
fn agree_in_tokens(old: &[Slot], new: &[Token]) -> bool
    ensures { result ≡ list_all (λ pair. is_same_token pair.0.token pair.1) (zip old.now new.now) }
{
    old.iter()
        .zip(new)
        .all(|(old, new)| is_same_token(&old.token, new))
}

/// Whether there are as many tokens, each the same as the one in its place.
fn is_same_body(old: &[Slot], new: &[Token]) -> bool
    ensures { result ≡ pointwise is_same_token (tokens_of old.now) new.now }
{
    old.len() == new.len() && agree_in_tokens(old, new)
}

/// Whether each name is the one in its place, as far as both rows go.
fn agree_in_names(old: &[Parameter], new: &[&[u8]]) -> bool
    ensures { result ≡ list_all (λ pair. bytes_eq pair.0.name pair.1.now) (zip old.now new.now) }
{
    old.iter()
        .zip(new)
        .all(|(old, new)| old.name.items() == *new)
}

/// Whether there are as many names, each the one in its place.
fn are_same_names(old: &[Parameter], new: &[&[u8]]) -> bool
    ensures { result ≡ pointwise bytes_eq (names_of old.now) (names_in_line new.now) }
{
    old.len() == new.len() && agree_in_names(old, new)
}

/// Whether both are object-like, or have the same names in the same order.
fn is_same_form(old: &Option<Vec<Parameter>>, new: &Option<Vec<&[u8]>>) -> bool
    ensures { result ≡ is_same_form (option_map (λ all. names_of all.items) old.now) (form_in_line new.now) }
{
    match (old, new) {
        (None, None) => true,
        (Some(old), Some(new)) => are_same_names(old, new),
        _ => false,
    }
}

impl Definition {
    /// Whether the line defines the same (X3.159-1989 3.8.3): the same parameters and tokens, but for places and white space.
    pub(crate) fn is_same(&self, line: &Line<'_>) -> bool
        ensures { result ≡ is_same self.now (named line.now).definition }
    {
        is_same_form(&self.parameters, &line.parameters) && is_same_body(&self.body, line.body)
    }

    /// What the line defines, with memory of its own.
    pub(crate) fn copied(alloc: Global, line: &Line<'_>) -> Result<Definition, AllocError>
        ensures { IfOk result (λ definition. definition ≡ (named line.now).definition) }
    {
        let Some(names) = &line.parameters else {
            let body = slots_of(alloc, &[], line.body)?;
            return Ok(Definition {
                parameters: None,
                body,
            });
        };
        let parameters = parameters_of(alloc, names, line.body)?;
        let body = slots_of(alloc, names, line.body)?;
        Ok(Definition {
            parameters: Some(parameters),
            body,
        })
    }

    /// Lends the parts.
    pub(crate) fn parts(&self) -> Parts<'_>
        ensures { IsParts self.now result }
    {
        Parts {
            parameters: match &self.parameters {
                None => None,
                Some(parameters) => Some(parameters.as_slice()),
            },
            body: self.body.as_slice(),
        }
    }
}
