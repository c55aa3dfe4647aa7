//! Reads and writes change no reply of other actions, and no well-formedness.
#![tactic(auto)]

mod law;

pub use law::accesses_are_quiet;
