//! Goes over texts of cases: what typing and lowering are to answer to pieces of C. It prints each answer that is not the one that is wanted.
#![tactic(auto)]

mod analysis;
mod code;
mod declarations;
mod effects;
mod expressions;
mod functions;
mod hazards;
mod initialisers;
mod must_facts;
mod programs;
mod refusal;
mod statements;
mod texts;
mod type_names;
mod world;

use expressions::Asked;
use hs_cases::{Case, cases};
use refusal::{Refusal, Why};
use std::alloc::{AllocError, Global};
use std::rt::Files;
use std::{env, fs, io};

/// What is answered to a case. `README.md` has the kinds.
fn answer(alloc: Global, it: &Case<'_>) -> Result<String, Refusal> {
    match it.kind {
        "type" => expressions::answer(alloc, Asked::Type, it.text),
        "constant" => expressions::answer(alloc, Asked::Constant, it.text),
        "noted" => expressions::answer(alloc, Asked::Noted, it.text),
        "address" => expressions::answer(alloc, Asked::Address, it.text),
        "string" => expressions::answer(alloc, Asked::Text, it.text),
        "routine" => expressions::answer(alloc, Asked::Routine, it.text),
        "null-test" => expressions::answer(alloc, Asked::NullTest, it.text),
        "objects" => declarations::objects(alloc, it.text),
        "constants" => initialisers::constants(alloc, it.text),
        "value" => initialisers::value(alloc, it.text),
        "inline" => initialisers::inline(alloc, it.text),
        "statements" => statements::count(alloc, it.text),
        "functions" => functions::count(alloc, it.text),
        "variables" => functions::variables(alloc, it.text),
        "marks" => functions::marks(alloc, it.text),
        "main" => programs::main_of(alloc, it.text),
        "program" => programs::is_one(alloc, it.text),
        "sizes" => programs::sizes(alloc, it.text),
        "fields" => programs::fields(alloc, it.text),
        "structs" => programs::structs(alloc, it.text),
        "routines" => programs::routines(alloc, it.text),
        "code" => code::spelled(alloc, it.text),
        "flow" => code::flow(alloc, it.text),
        "count" => code::count(alloc, it.text),
        "effects" => effects::answer(alloc, it.text),
        "may" => analysis::answer(alloc, analysis::Asked::Effects, it.text),
        "assigned" => analysis::answer(alloc, analysis::Asked::Assigned, it.text),
        "restores" => analysis::answer(alloc, analysis::Asked::Restores, it.text),
        "must" => must_facts::answer(alloc, it.text),
        "hazards" => hazards::answer(alloc, it.text),
        _ => Err(Why::Unread.into()),
    }
}

/// The same, and of a text that is refused the refusal.
fn answered(alloc: Global, it: &Case<'_>) -> Result<String, AllocError> {
    match answer(alloc, it) {
        Ok(said) => Ok(said),
        Err(refusal) => format!(in alloc; "{refusal}"),
    }
}

/// Prints a case that has another answer than the one that is wanted.
fn print_wrong(rt: &(impl Print), name: &str, it: &Case<'_>, said: &str) -> io::Result<()> {
    if said == it.wanted {
        return Ok(());
    }
    println!(rt;
        "{name}: {}\n  is answered by {said}\n  and not by {}",
        it.text, it.wanted
    )
}

/// Goes over the cases of a file.
fn check_file<R: Files + Print + AllocGlobal>(rt: &R, name: &str) -> io::Result<()> {
    let text = fs::read_to_string(rt, name)?;
    let its = cases(rt.alloc(), text.as_str())?;
    for it in &its {
        let said = answered(rt.alloc(), it)?;
        print_wrong(rt, name, it, said.as_str())?;
    }
    println!(rt; "{name}: {} cases", its.len())
}

fn main(rt: HostRuntime) -> io::Result<()> {
    for name in env::args(&rt)?.skip(1) {
        check_file(&rt, name.as_str())?;
    }
    Ok(())
}
