//! Laws of expressions, proved and without code: the grammar is not ambiguous, and what is read is the longest.

ghost use Rattle.std.specs.Prelude.{◌≡◌, ℕ, ◌≤◌, ◌-◌, List, length, take, Some, None};
ghost use Rattle.hs_tokens.specs.declared.token.SourceToken.{SourceToken};
ghost use Rattle.hs_syntax.specs.Grammar.{IsExpression};
ghost use Rattle.hs_syntax.specs.Trees.{Expression};
ghost use Rattle.hs_expr_parser.specs.Goals as goal;
ghost use Rattle.hs_expr_parser.specs.Reading.{Known, reading};

/// The same tokens are one expression at most, whatever typedef names are known (X3.159-1989 3.3): the grammar is not
/// ambiguous.
pub fn expressions_are_unambiguous()
    ensures { (known : Known) (tokens : List SourceToken) (e other : Expression) → IsExpression known tokens e
        → IsExpression known tokens other → e ≡ other }
{}

/// What is read is an expression of the tokens in front.
pub fn what_is_read_is_an_expression()
    ensures { (known : Known) (tokens : List SourceToken) (e : Expression) (rest : List SourceToken)
        → reading known goal.expression tokens ≡ Some (e, rest)
        → (length rest ≤ length tokens) × IsExpression known (take (length tokens - length rest) tokens) e }
{}

/// No expression in front is longer than what is read.
pub fn reading_is_the_longest()
    ensures { (known : Known) (tokens : List SourceToken) (e : Expression) (rest : List SourceToken)
        → reading known goal.expression tokens ≡ Some (e, rest) → (n : ℕ) (other : Expression) → n ≤ length tokens
        → IsExpression known (take n tokens) other → n ≤ length tokens - length rest }
{}

/// Nothing is read only if no expression starts.
pub fn nothing_is_read_where_none_starts()
    ensures { (known : Known) (tokens : List SourceToken) → reading known goal.expression tokens ≡ None → (n : ℕ)
        (other : Expression) → IsExpression known (take n tokens) other → ⊥ }
{}
