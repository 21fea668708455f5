//! Tokens on their way through replacement.

ghost use Rattle.std.specs.Prelude.{◌≡◌, ◌++◌, ℕ, List, IfOk, OnOk, map};
ghost use Rattle.hs_macros.specs.Replacement.{plain, source_of};
ghost use Rattle.hs_macros.specs.Stacks.{done, ahead};

use crate::hide_set::HideSet;
use hs_base::Pos;
use hs_tokens::{Origin, SourceToken, Token};
use std::alloc::{AllocError, Global};
use std::rc::Rc;

/// A token on its way through replacement.
#[derive(Drop)]
pub(crate) struct Pending<'a> {
    /// The token as it stands in a source or in a macro's definition.
    pub(crate) token: &'a Token,
    /// Where it counts as standing.
    pub(crate) pos: Pos,
    pub(crate) origin: Origin,
    /// The numbers of the macros that may not replace it.
    pub(crate) hides: Rc<HideSet>,
}

impl<'a> Pending<'a> {
    ghost use Rattle.hs_macros.specs.Numbers.{named};
    ghost use Rattle.hs_macros.specs.Stacks.{hidden};

    /// A token of a source, which hides the given set: that of no numbers.
    pub(crate) fn plain(token: &'a Token, hides: &Rc<HideSet>) -> Result<Pending<'a>, AllocError>
        ensures { (names : List (List ℕ)) → IfOk result (λ pending. hidden names pending
            ≡ record (plain token.now) { hides = named names hides.now.value }) }
    {
        Ok(Pending {
            token,
            pos: token.pos,
            origin: Origin::Plain,
            hides: hides.clone()?,
        })
    }

    /// The token without what it hides.
    pub(crate) fn source(&self) -> Result<SourceToken, AllocError>
        ensures { (names : List (List ℕ)) → IfOk result (λ source. source ≡ source_of (hidden names self.now)) }
    {
        let mut token = self.token.copied()?;
        token.pos = self.pos;
        Ok(SourceToken {
            token,
            origin: self.origin,
        })
    }
}

/// The tokens of a run of a source, the next one last. They hide nothing, and share the set of no numbers.
pub(crate) fn tokens_ahead<'a>(
    alloc: Global,
    run: &'a [Token],
) -> Result<Vec<Pending<'a>>, AllocError>
    ensures { (names : List (List ℕ)) → IfOk result (λ tokens. ahead names tokens.items ≡ map plain run.now) }
{
    let none = Rc::new(alloc, HideSet::new(alloc))?;
    let mut tokens = Vec::with_capacity(alloc, run.len())?;
    for token in run.iter().rev() {
        tokens.push(Pending::plain(token, &none)?)?;
    }
    Ok(tokens)
}

/// Puts the tokens after the sources, without what they hide.
pub(crate) fn put_sources(
    tokens: &[Pending<'_>],
    sources: &mut Vec<SourceToken>,
) -> Result<(), AllocError>
    ensures { (names : List (List ℕ)) → OnOk result (sources.new.items
        ≡ sources.old.items ++ map source_of (done names tokens.now)) }
{
    for pending in tokens {
        sources.push(pending.source()?)?;
    }
    Ok(())
}
