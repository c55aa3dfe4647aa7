//! The tasks of a run between two rounds: all see what each has seen, and how the run ends.
#![tactic(auto)]

pub mod ends;
pub mod meeting;
pub mod place;
