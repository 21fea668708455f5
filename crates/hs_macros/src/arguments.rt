//! Takes the arguments of an invocation (X3.159-1989 3.8.3).

ghost use Rattle.std.specs.Prelude.{◌≡◌, ◌<◌, ◌^◌, ℕ, List, [], map, IfOk, IfSome};
ghost use Rattle.hs_macros.specs.Arguments.{role_of, arguments_from, paired, bound};
ghost use Rattle.hs_macros.specs.Slots.{names_of};
ghost use Rattle.hs_macros.specs.Stacks.{ahead, done, collected, seen, seen_waiting, parameters_ahead};

use crate::pending::Pending;
use crate::slot::Parameter;
use hs_tokens::{Token, is_mark};
use std::alloc::{AllocError, Global};
use std::mem;

/// What stands between the parentheses of an invocation: its arguments, and the closing parenthesis.
#[derive(Drop)]
pub(crate) struct Between<'a> {
    pub(crate) given: Vec<Vec<Pending<'a>>>,
    pub(crate) close: Pending<'a>,
}

/// An argument, and the parameter that it is for.
#[derive(Drop)]
pub(crate) struct Supplied<'a> {
    pub(crate) parameter: &'a Parameter,
    pub(crate) tokens: Vec<Pending<'a>>,
}

/// What a token does among the arguments of an invocation (X3.159-1989 3.8.3).
#[derive(Clone, Copy)]
pub(crate) enum Role {
    /// The parenthesis that closes the invocation.
    Ends,
    /// A comma between two arguments.
    Separates,
    /// A token of an argument; so many parentheses are open after it, beside that of the invocation.
    Inside(usize),
}

/// What the token does, if so many parentheses are open before it.
fn role_of(depth: usize, token: &Token) -> Role
    requires { depth < 2 ^ 63 }
    ensures { result ≡ role_of depth token.now }
{
    if is_mark(b"(", token) {
        Role::Inside(depth + 1)
    } else if is_mark(b")", token) {
        if depth == 0 {
            Role::Ends
        } else {
            Role::Inside(depth - 1)
        }
    } else if is_mark(b",", token) && depth == 0 {
        Role::Separates
    } else {
        Role::Inside(depth)
    }
}

/// Takes the arguments of an invocation, after its opening parenthesis, or nothing if no parenthesis closes it
/// (X3.159-1989 3.8.3).
pub(crate) fn arguments_ahead<'a>(
    alloc: Global,
    tokens: &mut Vec<Pending<'a>>,
) -> Result<Option<Between<'a>>, AllocError>
    ensures { (names : List (List ℕ)) → IfOk result (λ found. seen names found (ahead names tokens.new.items)
        ≡ collected [] [] (arguments_from 0 (ahead names tokens.old.items))) }
{
    let mut given = Vec::new(alloc);
    let mut argument = Vec::new(alloc);
    let mut depth: usize = 0;
    'tokens: while let Some(token) = tokens.pop() {
        match role_of(depth, token.token) {
            Role::Ends => {
                given.push(argument)?;
                let close = token;
                return Ok(Some(Between { given, close }));
            }
            Role::Separates => {
                given.push(mem::replace(&mut argument, Vec::new(alloc)))?;
                depth = 0;
            }
            Role::Inside(behind) => {
                argument.push(token)?;
                depth = behind;
            }
        }
    }
    Ok(None)
}

/// As many arguments as parameters, the first one last; or nothing.
fn paired<'a>(
    alloc: Global,
    parameters: &'a [Parameter],
    given: Vec<Vec<Pending<'a>>>,
) -> Result<Option<Vec<Supplied<'a>>>, AllocError>
    ensures waiting { (names : List (List ℕ)) → IfOk result (λ arguments. seen_waiting names arguments
        ≡ paired (names_of parameters.now) (map (λ tokens. done names tokens.items) given.entry.items)) }
    ensures parameters { IfOk result (λ found. IfSome found (λ arguments. parameters_ahead arguments.items ≡ parameters.now)) }
{
    let mut left = parameters;
    let mut given = given;
    let mut waiting = Vec::new(alloc);
    'parameters: while let Some((parameter, others)) = left.split_last() {
        let Some(tokens) = given.pop() else {
            return Ok(None);
        };
        waiting.push(Supplied { parameter, tokens })?;
        left = others;
    }
    Ok(given.is_empty().then_some(waiting))
}

/// The arguments with their parameters, if there are as many. No parameters take nothing between the parentheses
/// (X3.159-1989 3.8.3).
pub(crate) fn bound<'a>(
    alloc: Global,
    parameters: &'a [Parameter],
    given: Vec<Vec<Pending<'a>>>,
) -> Result<Option<Vec<Supplied<'a>>>, AllocError>
    ensures waiting { (names : List (List ℕ)) → IfOk result (λ arguments. seen_waiting names arguments
        ≡ bound (names_of parameters.now) (map (λ tokens. done names tokens.items) given.entry.items)) }
    ensures parameters { IfOk result (λ found. IfSome found (λ arguments. parameters_ahead arguments.items ≡ parameters.now)) }
{
    if parameters.is_empty() && given.len() == 1 && given[0].is_empty() {
        return Ok(Some(Vec::new(alloc)));
    }
    paired(alloc, parameters, given)
}
