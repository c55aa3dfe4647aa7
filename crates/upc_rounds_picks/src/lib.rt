//! Runs of tasks over one history, all on one thread, by picks.
#![tactic(auto)]

mod picks;
mod turns;

pub use picks::run_by;
