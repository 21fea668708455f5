//! The expressions of statements: values, and the controlling expressions of branches, loops and switches.

ghost use Rattle.std.specs.Prelude.{◌≡◌, option_map};
ghost use Rattle.hs_linkage.specs.Works.{Works};
ghost use Rattle.hs_branches.specs.Branches.{valued, valued_if, condition, condition_if, switched, returned};
ghost use Rattle.hs_syntax.specs.Views.{view};
ghost use Rattle.hs_tree.specs.Views.{view_right};

use hs_expressions::value;
use hs_linkage::Translator;
use hs_operand_types::number_kind;
use hs_operands::{assigned, truth};
use hs_syntax::Expr;
use hs_tokens::Place;
use hs_tree::Rvalue;
use hs_typer::TypeError;
use hs_types::TypeId;
use std::alloc::Global;

/// The value of an expression.
///
/// Example: of `a[1]` the element, as it is read.
pub fn valued(alloc: Global, m: &mut Translator, e: &Expr) -> Result<Box<Rvalue>, TypeError>
    ensures { Works (λ it. view_right it.value) m.new (valued (view e.now) m.old) result }
{
    value(alloc, &mut m.typer, e)
}

/// The value of an expression, if there is one.
///
/// Example: nothing for the first part of `for (;;)`.
pub fn valued_if(
    alloc: Global,
    m: &mut Translator,
    e: &Option<Expr>,
) -> Result<Option<Box<Rvalue>>, TypeError>
    ensures { Works (option_map (λ it. view_right it.value)) m.new (valued_if (option_map view e.now) m.old) result }
{
    match e {
        None => Ok(None),
        Some(e) => Ok(Some(valued(alloc, m, e)?)),
    }
}

/// A controlling expression as a number (3.6.4.1 and 3.6.5). `at` is the place of the keyword of its statement, at which it is refused as
/// `Untyped` if it is no scalar.
///
/// Example: `p != 0` for `if (p)` with a pointer `p`.
pub fn condition(
    alloc: Global,
    m: &mut Translator,
    at: Place,
    e: &Expr,
) -> Result<Box<Rvalue>, TypeError>
    ensures { Works (λ it. view_right it.value) m.new (condition at (view e.now) m.old) result }
{
    let value = valued(alloc, m, e)?;
    Ok(truth(alloc, &m.typer.types, at, value)?)
}

/// A controlling expression, if there is one. Refused as `condition` is.
///
/// Example: nothing for `for (;;)`.
pub fn condition_if(
    alloc: Global,
    m: &mut Translator,
    at: Place,
    e: &Option<Expr>,
) -> Result<Option<Box<Rvalue>>, TypeError>
    ensures { Works (option_map (λ it. view_right it.value)) m.new (condition_if at (option_map view e.now) m.old) result }
{
    match e {
        None => Ok(None),
        Some(e) => Ok(Some(condition(alloc, m, at, e)?)),
    }
}

/// The controlling expression of a switch (3.6.4.2): a number, which is promoted. Refused as `Untyped` at the keyword if it is no number.
///
/// Example: an `int` for a `char`.
pub fn switched(
    alloc: Global,
    m: &mut Translator,
    at: Place,
    e: &Expr,
) -> Result<Box<Rvalue>, TypeError>
    ensures { Works (λ it. view_right it.value) m.new (switched at (view e.now) m.old) result }
{
    let value = valued(alloc, m, e)?;
    let Some(kind) = number_kind(&m.typer.types, value.head().type_id) else {
        return Err(TypeError::Untyped(at));
    };
    let id = TypeId::integer(kind.promoted());
    Ok(assigned(alloc, &m.typer.types, at, id, value)?)
}

/// The value that a function returns (3.6.6.4), converted to its type, as by assignment. Refused as `Untyped` at `return`.
///
/// Example: the `long` 1 for `return 1;` in a function that returns `long`.
pub fn returned(
    alloc: Global,
    m: &mut Translator,
    at: Place,
    id: TypeId,
    e: &Option<Expr>,
) -> Result<Option<Box<Rvalue>>, TypeError>
    ensures { Works (option_map (λ it. view_right it.value)) m.new (returned at id (option_map view e.now) m.old) result }
{
    match e {
        None => Ok(None),
        Some(e) => {
            let value = valued(alloc, m, e)?;
            Ok(Some(assigned(alloc, &m.typer.types, at, id, value)?))
        }
    }
}
