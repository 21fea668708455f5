//! Parses translation units (X3.159-1989 3.7).

ghost use Rattle.std.specs.Prelude.{◌≡◌, Err, IfOk, map};
ghost use Rattle.hs_base.specs.declared.limit.Limit.{Limit as ALimit};
ghost use Rattle.hs_base.specs.declared.pos.Pos.{Pos};
ghost use Rattle.hs_syntax.specs.Grammar.{IsUnit};
ghost use Rattle.hs_syntax.specs.Nesting.{IsShallow};
ghost use Rattle.hs_syntax.specs.Trees.{TranslationUnit};
ghost use Rattle.hs_syntax.specs.Views.{view_external, view_unit};
ghost use Rattle.hs_decl_parser.specs.Units.{depth, IsRefusedAt, IsStuck};
ghost use Rattle.hs_decl_parser.specs.declared.parse_error.ParseError.TheVariants.{Limit as limited, Syntax};

use crate::externals::external;
use crate::names::with_names;
use crate::parse_error::ParseError;
use hs_base::{Limit, LimitKind};
use hs_expr_parser::{ParseEnd, TypeNames, first};
use hs_syntax::{External, Unit, shallow};
use hs_tokens::SourceToken;
use std::alloc::Global;

/// Reads the external declarations of a unit whose tokens nest at most 256 deep.
///
/// `{ external }`
fn externals(alloc: Global, tokens: &[SourceToken]) -> Result<Vec<External>, ParseError>
    ensures found { IfOk result (λ its. IsUnit tokens.now (map view_external its.items)) }
    ensures stuck { (pos : Pos) → result ≡ Err (Syntax pos) → IsStuck tokens.now pos }
    ensures unlimited { (it : ALimit) → result ≡ Err (limited it) → ⊥ }
{
    let mut known = TypeNames::new(alloc);
    let mut its = Vec::new(alloc);
    let mut rest = tokens;
    'externals: while let Some((source, _)) = first(rest) {
        match external(alloc, &known, rest) {
            Ok((it, left)) => {
                known = with_names(alloc, known, &it)?;
                its.push(it)?;
                rest = left;
            }
            Err(ParseEnd::NotExpr) => return Err(ParseError::Syntax(source.token.pos)),
            Err(ParseEnd::NoMemory) => return Err(ParseError::NoMemory),
        }
    }
    Ok(its)
}

/// Reads a translation unit (X3.159-1989 3.7): all of its tokens.
///
/// `unit = { external }`
///
/// Example: `int x; int f(void) { return x; }` is a unit of a declaration and a function; of `int x; int;;`, the last `;`
/// is wrong.
///
/// Errors: `Limit`, of the kind `Depth`, if the tokens nest more than 256 deep, which is tried first; `Syntax` if they are no
/// unit, with the place of the first external declaration that is wrong; `NoMemory`.
pub fn unit(alloc: Global, tokens: &[SourceToken]) -> Result<Unit, ParseError>
    ensures found { IfOk result (λ it. IsShallow tokens.now × IsUnit tokens.now (view_unit it)) }
    ensures only { IfOk result (λ it. (other : TranslationUnit) → IsUnit tokens.now other → other ≡ view_unit it) }
    ensures deep { (IsShallow tokens.now → ⊥) → result ≡ Err (limited depth) }
    ensures limit { (it : ALimit) → result ≡ Err (limited it) → (it ≡ depth) × (IsShallow tokens.now → ⊥) }
    ensures syntax { (pos : Pos) → result ≡ Err (Syntax pos) → IsRefusedAt tokens.now pos }
{
    if !shallow(tokens) {
        return Err(ParseError::Limit(Limit {
            kind: LimitKind::Depth,
            reached: LimitKind::Depth.number(),
        }));
    }
    let externals = externals(alloc, tokens)?;
    Ok(Unit { externals })
}
