//! Places in a source, refusals, and the outside: what is read, what is written, and how each may fail.
#![tactic(auto)]

mod faults;
mod memory;
mod outside;
mod place;
mod sure;
mod text;
mod whole;

pub use faults::{Failed, ReadEnd, Stop};
pub use memory::{MemFiles, MemSink};
pub use outside::{Gate, OpenGate, Sink, Sources};
pub use place::{Code, Place, Refusal};
pub use std::alloc::AllocError as OutOfMemory;
pub use sure::{SureFiles, SureSink};
pub use text::Text;
pub use whole::{SOURCE_LIMIT, put_all, read_all, read_up_to};
