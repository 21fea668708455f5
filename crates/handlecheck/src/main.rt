//! The program `handlecheck`.
#![tactic(auto)]

use hs_command::refuse_memory;
pub use hs_command::run;
pub use hs_host::{HostFiles, HostSink};
use hs_movers::{Mover, Scripted, Seeded, Slide, Still};
pub use hs_report::Status;
use std::alloc::AllocError;
use std::env::Env;
use std::process::ExitCode;
use std::{env, io};

/// The words after the program's name. One that is no UTF-8 is an error.
fn words_after_name<R: Env + AllocGlobal>(rt: &R) -> io::Result<Vec<String>> {
    let mut words = Vec::new(rt.alloc());
    for word in env::args(rt)?.skip(1) {
        words.push(word)?;
    }
    Ok(words)
}

/// Hands the words to `run`, with the files of the system, standard output and the four movers: `still`, `slide`, `script` and `seeded`.
fn run_words<R: std::rt::Files + AllocGlobal, W: io::Write + Drop>(
    rt: &R,
    out: &mut HostSink<W>,
    words: &[String],
) -> Result<Status, AllocError> {
    let alloc = rt.alloc();
    let still: Box<dyn Mover> = Box::new(alloc, Still::new())?;
    let slide: Box<dyn Mover> = Box::new(alloc, Slide::new())?;
    let scripted: Box<dyn Mover> = Box::new(alloc, Scripted::new(alloc))?;
    let seeded: Box<dyn Mover> = Box::new(alloc, Seeded::new())?;
    let mut movers = Vec::new(alloc);
    movers.push(still)?;
    movers.push(slide)?;
    movers.push(scripted)?;
    movers.push(seeded)?;
    Ok(run(alloc, words, &mut HostFiles::new(rt), out, movers))
}

/// The status of a call, or that there is no memory for what is handed to it.
fn status_of<W: io::Write + Drop>(
    out: &mut HostSink<W>,
    ended: Result<Status, AllocError>,
) -> Status {
    match ended {
        Ok(status) => status,
        Err(_) => refuse_memory(out),
    }
}

/// Hands the words after the program's name to `run`, and ends with the code of its status.
fn main(rt: HostRuntime) -> ExitCode {
    let mut out = HostSink::new(io::writer(&rt));
    let status = match words_after_name(&rt) {
        Ok(words) => {
            let ended = run_words(&rt, &mut out, words.as_slice());
            status_of(&mut out, ended)
        }
        Err(error) => match error.kind() {
            io::ErrorKind::OutOfMemory => refuse_memory(&mut out),
            // A word that is no text is no name of a command, as no words are.
            _ => {
                let ended = run_words(&rt, &mut out, &[]);
                status_of(&mut out, ended)
            }
        },
    };
    ExitCode::from(status)
}
