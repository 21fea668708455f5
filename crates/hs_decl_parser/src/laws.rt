//! Laws of units, proved and without code: the grammar is not ambiguous, and a refusal has one place.

ghost use Rattle.std.specs.Prelude.{◌≡◌, List};
ghost use Rattle.hs_base.specs.declared.pos.Pos.{Pos};
ghost use Rattle.hs_tokens.specs.declared.token.SourceToken.{SourceToken};
ghost use Rattle.hs_syntax.specs.Grammar.{IsUnit};
ghost use Rattle.hs_syntax.specs.Trees.{TranslationUnit};
ghost use Rattle.hs_decl_parser.specs.Units.{IsStuck};

/// The same tokens are one unit at most (X3.159-1989 3.7): the grammar is not ambiguous.
pub fn units_are_unambiguous()
    ensures { (tokens : List SourceToken) (one other : TranslationUnit) → IsUnit tokens one → IsUnit tokens other
        → one ≡ other }
{}

/// The first external declaration that is wrong begins at one place.
pub fn syntax_has_one_place()
    ensures { (tokens : List SourceToken) (one other : Pos) → IsStuck tokens one → IsStuck tokens other → one ≡ other }
{}
