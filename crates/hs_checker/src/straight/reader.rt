//! Reads a straight program from the tokens of its unit.

ghost use Rattle.std.specs.Prelude.{◌≡◌, ◌<◌, ◌^◌, length, IfOk, IfSome, IfNone};
ghost use Rattle.hs_tree.specs.declared.straight.tree.Straight.{Straight};
ghost use Rattle.hs_checker.specs.Straight.Grammar.{IsStraight};

use crate::straight::declarations::declarations;
use crate::straight::ends::{after_opening, is_closing};
use crate::straight::steps::steps;
use hs_base::NoMemory;
use hs_tokens::SourceToken;
use hs_tree::straight::{Steps, Straight, Variables};
use std::alloc::Global;

/// Reads the tokens of a straight program, so few that the numbers of variables fit in their type.
fn read_few(alloc: Global, tokens: &[SourceToken]) -> Result<Option<Straight>, NoMemory>
    requires { length tokens.now < 2 ^ 32 }
    ensures found { IfOk result (λ tree. IfSome tree (IsStraight tokens.now)) }
    ensures only { IfOk result (λ tree. IfSome tree (λ it. (other : Straight) → IsStraight tokens.now other → other ≡ it)) }
    ensures none { IfOk result (λ tree. IfNone tree ((other : Straight) → IsStraight tokens.now other → ⊥)) }
{
    let Some(rest) = after_opening(tokens) else {
        return Ok(None);
    };
    let Some((variables, rest)) = declarations(alloc, rest)? else {
        return Ok(None);
    };
    let Some((steps, rest)) = steps(alloc, &variables, rest)? else {
        return Ok(None);
    };
    if !is_closing(rest) {
        return Ok(None);
    }
    let variables = Variables::from_vec(variables);
    let steps = Steps::from_vec(steps);
    Ok(Some(Straight { variables, steps }))
}

/// Reads a straight program from the tokens of its unit: its tree, or `None` if they spell none. More than 4294967295
/// tokens give `NoMemory`: numbers of variables would not fit in their type, and no memory holds such a list.
pub fn read(alloc: Global, tokens: &[SourceToken]) -> Result<Option<Straight>, NoMemory>
    ensures found { IfOk result (λ tree. IfSome tree (IsStraight tokens.now)) }
    ensures only { IfOk result (λ tree. IfSome tree (λ it. (other : Straight) → IsStraight tokens.now other → other ≡ it)) }
    ensures none { IfOk result (λ tree. IfNone tree ((other : Straight) → IsStraight tokens.now other → ⊥)) }
{
    if tokens.len() > 4_294_967_295 {
        return Err(NoMemory);
    }
    read_few(alloc, tokens)
}
