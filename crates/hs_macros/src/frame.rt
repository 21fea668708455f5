//! Where an expansion stands: the tokens that are done and those ahead, and the invocations that wait.

ghost use Rattle.hs_macros.specs.Slots.{names_of, tokens_of, ArePlaced, AreMarked};
ghost use Rattle.hs_macros.specs.Stacks.{parameters_around};

use crate::budget::Budget;
use crate::call::Call;
use crate::pending::Pending;
use crate::slot::Parameter;

/// How far the expansion of a list of tokens has come.
#[derive(Drop)]
pub(crate) struct Frame<'a> {
    /// The tokens that are done, in order; at the outermost frame those that the sources do not have yet.
    pub(crate) before: Vec<Pending<'a>>,
    /// Those ahead, the next one last.
    pub(crate) tokens: Vec<Pending<'a>>,
    pub(crate) left: Budget,
}

/// An invocation that waits for one of its arguments to be expanded.
#[derive(Drop)]
pub(crate) struct Suspended<'a> {
    /// The tokens before the invocation, done.
    pub(crate) before: Vec<Pending<'a>>,
    pub(crate) call: Call<'a>,
    /// The parameter whose argument is expanded.
    pub(crate) parameter: &'a Parameter,
    // What the call knows of its parameters still holds, with this one between those that are ready and those that wait.
    pub ghost placed: { ArePlaced (names_of (parameters_around call parameter)) call.body.now },
    pub ghost marked: { AreMarked (parameters_around call parameter) (tokens_of call.body.now) },
}
