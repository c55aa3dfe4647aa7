//! Threads that take a part of a run together, on a memory in which each has its own copy (UPC 5.1.2.3, Appendix B).
#![tactic(auto)]

mod part;
mod seated;
mod steps;

pub use part::Part;
pub use seated::Seated;
pub use steps::play;
