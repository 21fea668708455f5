//! Macros: definitions, replacement, limits and refusals.

use crate::refusal::Refusal;
use crate::tokens::{AMPLE, scanned};
use hs_cases::{between, option, parted, push_bytes, without_options};
use hs_macros::{Budget, Macros};
use hs_tokens::{Origin, SourceToken};
use std::alloc::{AllocError, Global};

/// Defines what is after a `#define`.
fn define(alloc: Global, macros: &mut Macros, line: &str) -> Result<(), Refusal> {
    let tokens = scanned(alloc, line, AMPLE)?;
    Ok(macros.define(&tokens)?)
}

/// Defines what each of these lines defines, with `; ` between two.
fn define_all(alloc: Global, macros: &mut Macros, lines: &str) -> Result<(), Refusal> {
    for line in lines.split("; ") {
        define(alloc, macros, line)?;
    }
    Ok(())
}

/// Does what the options `@define`, `@refused` and `@undef` of a text say, one after the other.
fn prepare(alloc: Global, macros: &mut Macros, text: &str) -> Result<(), Refusal> {
    for line in text.split('\n') {
        match parted(line, " ") {
            ("@define", lines) => define_all(alloc, macros, lines)?,
            ("@undef", name) => macros.undef(name.as_bytes()),
            ("@refused", line) => {
                let _ = define(alloc, macros, line);
            }
            _ => {}
        }
    }
    Ok(())
}

/// The budget of the option `@budget`: a number of replacements and one of tokens. Without it, it is 100 of each.
fn budget_of(text: &str) -> Budget {
    let (replacements, tokens) = parted(option(text, "@budget ").unwrap_or(""), " ");
    Budget {
        replacements: replacements.parse().unwrap_or(100),
        tokens: tokens.parse().unwrap_or(100),
    }
}

/// The text's tokens, replaced, from a budget.
fn expanded(
    alloc: Global,
    macros: &Macros,
    text: &str,
    left: &mut Budget,
) -> Result<Vec<SourceToken>, Refusal> {
    let run = scanned(alloc, text, AMPLE)?;
    Ok(macros.expand(&run, left)?)
}

/// The tokens, with a space between two.
fn spelled(alloc: Global, tokens: &[SourceToken]) -> Result<String, AllocError> {
    let mut words = String::new(alloc);
    for source in tokens {
        words.push_str(between(words.as_str(), " "))?;
        push_bytes(&mut words, source.token.text.items())?;
    }
    Ok(words)
}

/// The places of the tokens, and which of them a macro put there.
fn sources(alloc: Global, tokens: &[SourceToken]) -> Result<String, AllocError> {
    let mut words = String::new(alloc);
    for SourceToken { token, origin } in tokens {
        let comma = between(words.as_str(), ", ");
        let origin = match origin {
            Origin::Plain => "",
            Origin::Macro => " macro",
        };
        write!(
            words,
            "{comma}{}:{}:{}{origin}",
            token.pos.file, token.pos.line, token.pos.col
        )?;
    }
    Ok(words)
}

/// The text, replaced from a budget, and spelled.
fn replaced(
    alloc: Global,
    macros: &Macros,
    text: &str,
    left: &mut Budget,
) -> Result<String, Refusal> {
    let tokens = expanded(alloc, macros, text, left)?;
    Ok(spelled(alloc, &tokens)?)
}

/// Whether the text is replaced from a budget: nothing, or the refusal in words.
fn refusal(
    alloc: Global,
    macros: &Macros,
    text: &str,
    left: &mut Budget,
) -> Result<String, AllocError> {
    match expanded(alloc, macros, text, left) {
        Ok(_) => "replaced".to_string(alloc),
        Err(refusal) => refusal.words(alloc),
    }
}

/// What a text of that kind is replaced by, with a budget.
fn replacement(
    alloc: Global,
    macros: &Macros,
    kind: &str,
    text: &str,
    left: &mut Budget,
) -> Result<String, Refusal> {
    match kind {
        "limited" => Ok(refusal(alloc, macros, text, left)?),
        "sources" => {
            let tokens = expanded(alloc, macros, text, left)?;
            Ok(sources(alloc, &tokens)?)
        }
        _ => replaced(alloc, macros, text, left),
    }
}

/// The same; and what is left of the budget, if the kind asks for it.
fn expansion(
    alloc: Global,
    macros: &Macros,
    kind: &str,
    text: &str,
    before: Budget,
) -> Result<String, Refusal> {
    let mut left = before;
    let words = replacement(alloc, macros, kind, text, &mut left)?;
    if kind == "replaced" || kind == "sources" {
        return Ok(words);
    }
    let Budget {
        replacements,
        tokens,
    } = left;
    Ok(format!(in alloc; "{words}; {replacements} {tokens}")?)
}

/// Whether a line is a definition, in words.
fn defined(alloc: Global, macros: &mut Macros, line: &str) -> Result<String, AllocError> {
    match define(alloc, macros, line) {
        Ok(()) => "defined".to_string(alloc),
        Err(refusal) => refusal.words(alloc),
    }
}

/// Whether a line is a definition, and whether `F` and `defined` have one then.
fn definition(alloc: Global, macros: &mut Macros, line: &str) -> Result<String, Refusal> {
    let answer = defined(alloc, macros, line)?;
    let (name, word) = (macros.is_defined(b"F"), macros.is_defined(b"defined"));
    Ok(format!(in alloc; "{answer}; F {name}; defined {word}")?)
}

/// Whether a line is a definition, whether `F` has one then, and what `F(9)` is replaced by.
fn redefinition(alloc: Global, macros: &mut Macros, line: &str) -> Result<String, Refusal> {
    let answer = defined(alloc, macros, line)?;
    let name = macros.is_defined(b"F");
    let words = replaced(alloc, macros, "F(9)", &mut budget_of(""))?;
    Ok(format!(in alloc; "{answer}; F {name}; {words}")?)
}

/// A name, a line and a text. Whether the name has a definition and what the text is replaced by: once the name's definition is
/// taken away, and once the line is defined.
fn change(alloc: Global, macros: &mut Macros, text: &str) -> Result<String, Refusal> {
    let (name, text) = parted(text, "\n");
    let (line, text) = parted(text, "\n");
    macros.undef(name.as_bytes());
    let before = macros.is_defined(name.as_bytes());
    let without = replaced(alloc, macros, text, &mut budget_of(""))?;
    define(alloc, macros, line)?;
    let after = macros.is_defined(name.as_bytes());
    let with = replaced(alloc, macros, text, &mut budget_of(""))?;
    Ok(format!(in alloc; "{before}; {without}; {after}; {with}")?)
}

/// What a text of that kind is answered by, under the macros of its options.
fn under(alloc: Global, macros: &mut Macros, kind: &str, text: &str) -> Result<String, Refusal> {
    prepare(alloc, macros, text)?;
    let lines = without_options(alloc, text)?;
    match kind {
        "replaced" | "sources" | "left" | "limited" => {
            expansion(alloc, macros, kind, lines.as_str(), budget_of(text))
        }
        "define" => Ok(defined(alloc, macros, lines.as_str())?),
        "definition" => definition(alloc, macros, lines.as_str()),
        "redefinition" => redefinition(alloc, macros, lines.as_str()),
        "change" => change(alloc, macros, lines.as_str()),
        _ => Err(Refusal::Kind),
    }
}

/// The same.
pub fn answer(alloc: Global, kind: &str, text: &str) -> Result<String, Refusal> {
    let mut macros = Macros::new(alloc)?;
    under(alloc, &mut macros, kind, text)
}
