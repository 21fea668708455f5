//! Files and a sink in memory, for tests, and for callers that have their sources at hand. `specs/Memory.antt` says what they answer.
#![tactic(auto)]

mod mem_files;
mod mem_sink;

pub use mem_files::MemFiles;
pub use mem_sink::MemSink;
