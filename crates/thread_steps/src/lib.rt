//! The steps of a thread: what each operation of a program does, whatever the program is written in.
#![tactic(auto)]

mod cast;
mod elements;

pub use cast::CastTo;
pub use elements::Elements;
