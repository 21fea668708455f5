//! What the functions that are called may do.

ghost use Rattle.std.specs.Prelude.{◌≡◌, ℕ, Bool, Some};
ghost use Rattle.hs_fact_rows.specs.Given.{gone, gone_of};

use hs_tree::Variable;

/// What is known of the functions of a program, by their numbers.
pub trait Callees {
    ghost assigned: { Self → ℕ → ℕ → Bool };

    /// Whether a call of the function may assign the global.
    fn assigns(&self, function: u32, global: u32) -> bool
        ensures { result ≡ assigned self.now function global };
}

/// Whether the function may assign the variable.
fn assigns_to<C: Callees>(callees: &C, function: u32, variable: Variable) -> bool
    ensures { result ≡ gone_of (C.assigned callees.now function) (Some variable) }
{
    match variable {
        Variable::Global(global) => callees.assigns(function, global),
        Variable::Local(_) => false,
    }
}

/// Returns whether a call of the function ends what is known of the variable of that number.
///
/// Example: false for a local, and for a number past the list.
pub fn is_gone<C: Callees>(callees: &C, function: u32, list: &[Variable], place: usize) -> bool
    ensures { result ≡ gone (C.assigned callees.now function) list.now place }
{
    match list.get(place) {
        Some(variable) => assigns_to(callees, function, *variable),
        None => false,
    }
}
