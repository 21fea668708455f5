//! Which declarators are those of functions (X3.159-1989 3.7.1).

ghost use Rattle.std.specs.Prelude.{◌≡◌, map, option_map, option_copied};
ghost use Rattle.hs_functions.specs.Functions.{is_name, parameters_of};
ghost use Rattle.hs_syntax.specs.RowViews.{view_parameter, parameters_from};
ghost use Rattle.hs_syntax.specs.Views.{view_declarator, view_direct};

use hs_syntax::{Declarator, Direct, Parameter};

/// Whether it is nothing but a name, maybe in parentheses.
fn is_name(it: &Direct) -> bool
    ensures { result ≡ is_name (view_direct it.now) }
{
    let mut direct = it;
    'direct: loop {
        match direct {
            Direct::Name(_) => return true,
            Direct::Parens(inner) => match inner.pointers.split_first() {
                Some(_) => return false,
                None => direct = &inner.direct,
            },
            Direct::Empty
            | Direct::Array(_)
            | Direct::Sized { .. }
            | Direct::Function { .. }
            | Direct::FunctionOfVoid { .. } => return false,
        }
    }
}

/// The parameters of what a declarator names, if it is a function by the declarator itself.
#[tactic(auto, using(hs_syntax::specs::RowLaws::parameters_seen))]
pub(crate) fn parameters_of(it: &Declarator) -> Option<&[Parameter]>
    ensures { option_map (λ its. parameters_from (map view_parameter its)) (option_copied result) ≡ parameters_of (view_declarator it.now) }
{
    let mut direct = &it.direct;
    'direct: loop {
        match direct {
            Direct::Empty | Direct::Name(_) => return None,
            Direct::Parens(inner) => direct = &inner.direct,
            Direct::Array(base) | Direct::Sized { base, .. } => direct = base,
            Direct::Function { base, parameters } => {
                if is_name(base) {
                    return Some(parameters.as_slice());
                }
                direct = base;
            }
            Direct::FunctionOfVoid { base, .. } => {
                if is_name(base) {
                    return Some(&[]);
                }
                direct = base;
            }
        }
    }
}
