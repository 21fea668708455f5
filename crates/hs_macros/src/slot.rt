//! What a definition knows of its parameters and its tokens, so that no use of the macro looks for a name.

ghost use Rattle.std.specs.Prelude.{◌≡◌, ℕ, List, IfOk};
ghost use Rattle.hs_macros.specs.Lines.{names_of as names_in_line};
ghost use Rattle.hs_macros.specs.Slots.{names_of, tokens_of, place_in, HasPlaces, HasTexts, ArePlaced, AreMarked};

use hs_base::Bytes;
use hs_tokens::{Token, is_identifier};
use std::alloc::{AllocError, Global};
use std::collections::{HashMap, HashSet};

/// A parameter of a function-like macro.
#[derive(Drop)]
pub(crate) struct Parameter {
    pub(crate) name: Bytes,
    /// Whether some token of the macro names it. An argument that none names is not expanded.
    pub(crate) used: bool,
}

/// A token of a macro.
#[derive(Drop)]
pub(crate) struct Slot {
    pub(crate) token: Token,
    /// The index of the parameter that it names, if it names one.
    pub(crate) parameter: Option<usize>,
}

/// The index of each name, of the first one if it stands twice.
fn places_of<'a>(alloc: Global, names: &[&'a [u8]]) -> Result<HashMap<&'a [u8], usize>, AllocError>
    ensures { IfOk result (HasPlaces (names_in_line names.now)) }
{
    let mut places = HashMap::new(alloc);
    let mut place = names.len();
    for name in names.iter().rev() {
        place -= 1;
        places.insert(*name, place)?;
    }
    Ok(places)
}

/// The index of the parameter that the token names, if it names one.
fn place_in(places: &HashMap<&[u8], usize>, token: &Token) -> Option<usize>
    ensures { (names : List (List ℕ)) → HasPlaces names places.now → result ≡ place_in names token.now }
{
    if is_identifier(token) {
        places.get(token.text.items()).copied()
    } else {
        None
    }
}

/// The texts of the tokens that are identifiers.
fn texts_of(alloc: Global, tokens: &[Token]) -> Result<HashSet<&[u8]>, AllocError>
    ensures { IfOk result (HasTexts tokens.now) }
{
    let mut texts = HashSet::new(alloc);
    'tokens: for token in tokens {
        if is_identifier(token) {
            texts.insert(token.text.items())?;
        }
    }
    Ok(texts)
}

/// The tokens, each copied, with the parameter that it names.
pub(crate) fn slots_of(
    alloc: Global,
    names: &[&[u8]],
    tokens: &[Token],
) -> Result<Vec<Slot>, AllocError>
    ensures tokens { IfOk result (λ body. tokens_of body.items ≡ tokens.now) }
    ensures placed { IfOk result (λ body. ArePlaced (names_in_line names.now) body.items) }
{
    let places = places_of(alloc, names)?;
    let mut body = Vec::with_capacity(alloc, tokens.len())?;
    'tokens: for token in tokens {
        body.push(Slot {
            token: token.copied()?,
            parameter: place_in(&places, token),
        })?;
    }
    Ok(body)
}

/// The parameters of these names, each with whether some token names it.
pub(crate) fn parameters_of(
    alloc: Global,
    names: &[&[u8]],
    tokens: &[Token],
) -> Result<Vec<Parameter>, AllocError>
    ensures names { IfOk result (λ parameters. names_of parameters.items ≡ names_in_line names.now) }
    ensures marked { IfOk result (λ parameters. AreMarked parameters.items tokens.now) }
{
    let texts = texts_of(alloc, tokens)?;
    let mut parameters = Vec::with_capacity(alloc, names.len())?;
    'names: for name in names {
        parameters.push(Parameter {
            name: Bytes::from_vec(name.to_vec(alloc)?),
            used: texts.contains(*name),
        })?;
    }
    Ok(parameters)
}
