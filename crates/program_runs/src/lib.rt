//! Runs of programs: compiled, and then run.
#![tactic(auto)]

mod run;

pub use run::{run_program, run_program_by};
