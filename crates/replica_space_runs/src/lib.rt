//! Runs of code on a memory with a copy for each thread: by rounds, each thread on a thread of its own, and by picks,
//! all on one thread of the machine.
#![tactic(auto)]

mod begin;
mod picks;
mod threads;
mod turns;

pub use picks::run_replicas_by;
pub use threads::run_replicas;
