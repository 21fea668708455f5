//! A call of the command: with the movers that the program `handlecheck` hands in, with one of a caller, or with none.

use crate::silent::Silent;
use hs_base::Files;
use hs_command::run;
use hs_memory::MemSink;
use hs_movers::{Mover, Scripted, Seeded, Slide, Still};
use hs_report::Status;
use std::alloc::{AllocError, Global};

/// What the command ends with.
pub(crate) fn status_of<F: Files>(
    alloc: Global,
    words: &[String],
    files: &mut F,
    out: &mut MemSink,
) -> Result<Status, AllocError> {
    let still: Box<dyn Mover> = Box::new(alloc, Still::new())?;
    let slide: Box<dyn Mover> = Box::new(alloc, Slide::new())?;
    let scripted: Box<dyn Mover> = Box::new(alloc, Scripted::new(alloc))?;
    let seeded: Box<dyn Mover> = Box::new(alloc, Seeded::new())?;
    let mut movers = Vec::new(alloc);
    movers.push(still)?;
    movers.push(slide)?;
    movers.push(scripted)?;
    movers.push(seeded)?;
    Ok(run(alloc, words, files, out, movers))
}

/// What the command ends with if it is handed that mover alone, or none.
pub(crate) fn status_with<F: Files>(
    alloc: Global,
    words: &[String],
    files: &mut F,
    out: &mut MemSink,
    mover: Option<Silent>,
) -> Result<Status, AllocError> {
    let mut movers = Vec::new(alloc);
    if let Some(mover) = mover {
        let boxed: Box<dyn Mover> = Box::new(alloc, mover)?;
        movers.push(boxed)?;
    }
    Ok(run(alloc, words, files, out, movers))
}
