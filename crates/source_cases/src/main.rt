//! Goes over files of cases: what the crates that read and parse C answer to many texts, and what they are to answer.
#![tactic(auto)]

mod constants;
mod directives;
mod macros;
mod parsing;
mod refusal;
mod tokens;

use hs_cases::{Case, cases};
use parsing::Kind;
use refusal::Refusal;
use std::alloc::{AllocError, Global};
use std::{env, fs, io};

/// What a text of that kind is answered by, if it is a kind of reading.
fn read(alloc: Global, kind: &str, text: &str) -> Result<String, Refusal> {
    match kind {
        "tokens" | "places" | "count" | "refusal" => tokens::answer(alloc, kind, text),
        "condition" | "division" | "sign" => constants::condition(alloc, kind, text),
        "number" | "character" | "string" | "front" => constants::constant(alloc, kind, text),
        "directives" | "lengths" | "summary" | "changes" | "origins" | "texts" => {
            directives::answer(alloc, kind, text)
        }
        _ => macros::answer(alloc, kind, text),
    }
}

/// What a case is answered by. `README.md` lists the kinds.
fn answered(alloc: Global, case: &Case<'_>) -> Result<String, Refusal> {
    match Kind::of(case.kind) {
        Some(kind) => Ok(parsing::answer(alloc, case, kind)?),
        None => read(alloc, case.kind, case.text),
    }
}

/// What a case is answered by; if that is a refusal, it in words.
fn answer(alloc: Global, case: &Case<'_>) -> Result<String, AllocError> {
    match answered(alloc, case) {
        Ok(words) => Ok(words),
        Err(refusal) => refusal.words(alloc),
    }
}

/// Prints each case of a text that is answered by other words than it wants, and then the number of its cases.
fn compare(rt: &(impl Print + AllocGlobal), name: &str, text: &str) -> io::Result<()> {
    let alloc = rt.alloc();
    let all = cases(alloc, text)?;
    for case in &all {
        let answer = answer(alloc, case)?;
        if answer.as_str() != case.wanted {
            println!(rt;
                "{name}: {}\n  is answered by {answer}\n  and not by {}",
                case.text, case.wanted
            )?;
        }
    }
    println!(rt; "{name}: {} cases", all.len())
}

fn main(rt: HostRuntime) -> io::Result<()> {
    for name in env::args(&rt)?.skip(1) {
        let text = fs::read_to_string(&rt, name.as_str())?;
        compare(&rt, name.as_str(), text.as_str())?;
    }
    Ok(())
}
