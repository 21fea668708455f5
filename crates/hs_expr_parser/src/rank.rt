//! Whether an expression is a unary one, or one that binds more tightly (X3.159-1989 3.3.3).

ghost use Rattle.std.specs.Prelude.{◌≡◌, nat_le};
ghost use Rattle.hs_syntax.specs.Phrases.{rank};
ghost use Rattle.hs_syntax.specs.Views.{view};

use hs_syntax::Expr;

/// Whether the expression is a unary one, or one that binds more tightly (X3.159-1989 3.3.3).
pub(crate) fn is_unary(e: &Expr) -> bool
    ensures { result ≡ nat_le 14 (rank (view e.now)) }
{
    match e {
        Expr::Cast { .. }
        | Expr::Binary { .. }
        | Expr::Conditional { .. }
        | Expr::Assign { .. }
        | Expr::Comma { .. } => false,
        Expr::Name(_)
        | Expr::Number(_)
        | Expr::Character(_)
        | Expr::Strings(_, _)
        | Expr::Parens { .. }
        | Expr::Index { .. }
        | Expr::Call { .. }
        | Expr::Member { .. }
        | Expr::Postfix { .. }
        | Expr::Prefix { .. }
        | Expr::SizeofValue { .. }
        | Expr::SizeofType { .. } => true,
    }
}
