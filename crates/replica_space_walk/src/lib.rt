//! The orders of a run with a copy of the shared memory for each thread: a walk over its events with a list of
//! operations for each thread (UPC Appendix B).
#![tactic(auto)]

mod mail;
mod orders;
mod rows;
mod walk;

pub use orders::replica_orders;
