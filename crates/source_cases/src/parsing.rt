//! How texts of C are parsed, and what the tree of a unit keeps of them.

mod expressions;
mod fronts;
mod kind;
mod shown;
mod spelling;
mod texts;
mod units;

use hs_base::NoMemory;
use hs_cases::Case;
use hs_syntax::shallow;
use hs_tokens::SourceToken;
pub(crate) use kind::Kind;
use std::alloc::Global;
use texts::{constants_of, function_with, said, text_of, tokens_of};

/// Whether the nesting of tokens is within its limit.
fn nesting_answer(alloc: Global, tokens: &[SourceToken]) -> Result<String, NoMemory> {
    let word = if shallow(tokens) {
        "shallow"
    } else {
        "too deep"
    };
    said(alloc, word)
}

/// What tokens are answered by.
fn tokens_answer(alloc: Global, tokens: &[SourceToken], kind: Kind) -> Result<String, NoMemory> {
    match kind {
        Kind::Nesting => nesting_answer(alloc, tokens),
        Kind::Constants => expressions::answer(alloc, tokens, expressions::Asked::Left),
        Kind::Expression(asked) => expressions::answer(alloc, tokens, asked),
        Kind::Body | Kind::Fronts => units::answer(alloc, tokens, units::Asked::Verdict),
        Kind::Unit(asked) => units::answer(alloc, tokens, asked),
    }
}

/// What a text is answered by.
fn text_answer(alloc: Global, text: &[u8], kind: Kind) -> Result<String, NoMemory> {
    match tokens_of(alloc, text)? {
        Some(tokens) => tokens_answer(alloc, &tokens, kind),
        None => said(alloc, "no tokens"),
    }
}

/// What a case of that kind is answered by.
pub(crate) fn answer(alloc: Global, it: &Case<'_>, kind: Kind) -> Result<String, NoMemory> {
    match kind {
        Kind::Constants => tokens_answer(alloc, &constants_of(alloc, it.text)?, kind),
        Kind::Body => text_answer(alloc, &function_with(alloc, it.text)?, kind),
        Kind::Fronts => fronts::answer(alloc, it),
        _ => text_answer(alloc, &text_of(alloc, it.text)?, kind),
    }
}
