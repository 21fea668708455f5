//! Goes over files of cases: what the command line answers to words and files, and what it is to answer.
#![tactic(auto)]

mod command;
mod memory;
mod real;
mod silent;

use hs_base::NoMemory;
use hs_cases::{Case, File, cases};
use std::alloc::Global;
use std::rt::Files;
use std::{env, fs, io};

/// The files of the folder that each case in memory has too, unless it has a file of that name itself.
const SHARED: [&str; 5] = ["table.toml", "mac.h", "prelude.h", "split.c", "macros.c"];

/// These files, with their bytes.
fn shared<R: Files + AllocGlobal>(rt: &R) -> io::Result<Vec<File>> {
    let mut files = Vec::new(rt.alloc());
    for name in SHARED {
        let bytes = fs::read(rt, name)?;
        files.push((name.to_string(rt.alloc())?, bytes))?;
    }
    Ok(files)
}

/// An answer, or the words for no memory.
fn in_words(alloc: Global, answer: Result<String, NoMemory>) -> io::Result<String> {
    match answer {
        Ok(words) => Ok(words),
        Err(NoMemory) => Ok("no memory".to_string(alloc)?),
    }
}

/// What a case is answered by, in words. `README.md` lists the kinds.
fn answer<R: Files + AllocGlobal>(rt: &R, shared: &[File], case: &Case<'_>) -> io::Result<String> {
    match case.kind {
        "files" => real::answer(rt, case.text, case.wanted),
        kind => in_words(
            rt.alloc(),
            memory::answer(rt.alloc(), shared, kind, case.text),
        ),
    }
}

/// Prints each case of a text that is answered by other words than it wants, and then the number of its cases.
fn compare<R: Files + Print + AllocGlobal>(
    rt: &R,
    shared: &[File],
    name: &str,
    text: &str,
) -> io::Result<()> {
    let all = cases(rt.alloc(), text)?;
    for case in &all {
        let answer = answer(rt, shared, case)?;
        if answer.as_str() != case.wanted {
            println!(rt;
                "{name}: {}\n  is answered by {answer}\n  and not by {}",
                case.text, case.wanted
            )?;
        }
    }
    println!(rt; "{name}: {} cases", all.len())
}

fn main(rt: HostRuntime) -> io::Result<()> {
    let shared = shared(&rt)?;
    for name in env::args(&rt)?.skip(1) {
        let text = fs::read_to_string(&rt, name.as_str())?;
        compare(&rt, &shared, name.as_str(), text.as_str())?;
    }
    Ok(())
}
