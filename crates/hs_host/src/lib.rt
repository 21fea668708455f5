//! The files of the system, as `Files`, and a writer of the system, as `Sink`.
#![tactic(auto)]

mod host_files;
mod host_sink;

pub use host_files::HostFiles;
pub use host_sink::HostSink;
