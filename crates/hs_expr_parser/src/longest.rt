//! The longest expression from a token on, as the grammar has it: for tests and measurements.

ghost use Rattle.std.specs.Prelude.{◌≡◌, ℕ, ◌<◌, ◌≤◌, ◌-◌, length, take, drop, IfOk, Err};
ghost use Rattle.hs_syntax.specs.Grammar.{IsExpression};
ghost use Rattle.hs_syntax.specs.Nesting.{IsShallow};
ghost use Rattle.hs_syntax.specs.Trees.{Expression};
ghost use Rattle.hs_syntax.specs.Views.{view};
ghost use Rattle.hs_expr_parser.specs.declared.parse_end.ParseEnd.TheVariants.{NotExpr};

use crate::expressions::expression;
use crate::parse_end::ParseEnd;
use crate::type_names::TypeNames;
use hs_syntax::Expr;
use hs_tokens::SourceToken;
use std::alloc::Global;

/// Reads the longest expression from the token numbered `at`, if these typedef names are known (X3.159-1989 3.3), and
/// gives the number of the token after it. The tokens nest 256 deep at most, so that the stack is deep enough.
///
/// Example: of `a + 1 ; b` from token 0 on, it reads `a + 1` and returns 3.
///
/// Errors: `NotExpr` if no expression starts there; `NoMemory`.
pub fn expr(
    alloc: Global,
    tokens: &[SourceToken],
    at: usize,
    typedefs: &TypeNames,
) -> Result<(Expr, usize), ParseEnd>
    requires { (at ≤ length tokens.now) × IsShallow tokens.now }
    ensures found { IfOk result (λ x. (at ≤ x.1) × (x.1 ≤ length tokens.now)
        × IsExpression typedefs.now (take (x.1 - at) (drop at tokens.now)) (view x.0)) }
    ensures longest { IfOk result (λ x. (n : ℕ) (other : Expression) → x.1 < n → n ≤ length tokens.now
        → IsExpression typedefs.now (take (n - at) (drop at tokens.now)) other → ⊥) }
    ensures only { IfOk result (λ x. (other : Expression)
        → IsExpression typedefs.now (take (x.1 - at) (drop at tokens.now)) other → other ≡ view x.0) }
    ensures none { result ≡ Err NotExpr → (n : ℕ) (other : Expression)
        → IsExpression typedefs.now (take n (drop at tokens.now)) other → ⊥ }
{
    let (e, rest) = expression(alloc, typedefs, &tokens[at..])?;
    Ok((e, tokens.len() - rest.len()))
}
