//! The workers of a run on a memory with a copy for each thread, all on one thread of the machine: how the run ends.
#![tactic(auto)]

pub mod ends;
