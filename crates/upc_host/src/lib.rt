//! The outside itself, for the programs: files by name, an output, and the words after a program's name.
#![tactic(auto)]

mod host;
mod words;

pub use host::{HostFiles, HostSink};
pub use words::host_words;
