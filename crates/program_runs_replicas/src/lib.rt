//! Runs of programs on a memory in which each thread has its own copy: compiled, and then run.
#![tactic(auto)]

mod run;

pub use run::{run_program_replicas, run_program_replicas_by};
