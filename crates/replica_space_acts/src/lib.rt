//! Runs in which each thread has its own copy of the shared memory, one event at a time (UPC 5.1.2.3, Appendix B).
#![tactic(auto)]

mod kept;
mod replicas;

pub use replicas::Replicas;
