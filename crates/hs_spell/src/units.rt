//! Spells units: the call for other crates.

ghost use Rattle.std.specs.Prelude.{◌≡◌, List, ℕ, [], true, map, IfOk};
ghost use Rattle.hs_spell.specs.Appends.{Appends};
ghost use Rattle.hs_syntax.specs.Grammar.{external_form, unit_form, IsUnit};
ghost use Rattle.hs_spell.specs.Spelling.{source_of, spelling};
ghost use Rattle.hs_syntax.specs.Views.{view_external, view_unit};

use crate::declarations::declaration;
use crate::expressions::{declarator, specifiers};
use crate::statements::block;
use hs_base::NoMemory;
use hs_syntax::{External, Unit};
use hs_tokens::Token;
use std::alloc::Global;

/// Appends an external declaration.
fn external(alloc: Global, tokens: &mut Vec<Token>, it: &External) -> Result<(), NoMemory>
    ensures { (known : List (List ℕ)) → Appends result tokens.old.items tokens.new.items
        (external_form known (view_external it.now)) }
{
    match it {
        External::Function {
            specifiers: its,
            declarator: named,
            body,
        } => {
            specifiers(alloc, tokens, its)?;
            declarator(alloc, tokens, named)?;
            block(alloc, tokens, body)?;
            Ok(())
        }
        External::Declaration(it) => {
            declaration(alloc, tokens, it)?;
            Ok(())
        }
    }
}

/// Appends external declarations.
fn externals(alloc: Global, tokens: &mut Vec<Token>, its: &[External]) -> Result<(), NoMemory>
    ensures { (known : List (List ℕ)) → Appends result tokens.old.items tokens.new.items
        (unit_form known (map view_external its.now)) }
{
    for it in its {
        external(alloc, tokens, it)?;
    }
    Ok(())
}

/// Spells a unit: returns its tokens in order, each with the place that the tree keeps of it. A token whose place the tree
/// does not keep has line 0 and column 0. `NoMemory` is the only error.
///
/// Example: the tree of `int x;` has the tokens `int`, `x` and `;`.
#[tactic(auto, using(crate::proofs::Sourced::of_sources))]
pub fn spell(alloc: Global, unit: &Unit) -> Result<Vec<Token>, NoMemory>
    ensures exact { IfOk result (λ tokens. tokens.items ≡ spelling (view_unit unit.now)) }
    ensures related { (unit_form [] (view_unit unit.now)).fits ≡ true
        → IsUnit (map source_of (unit_form [] (view_unit unit.now)).pieces) (view_unit unit.now) }
{
    let mut tokens = Vec::new(alloc);
    externals(alloc, &mut tokens, &unit.externals)?;
    Ok(tokens)
}
