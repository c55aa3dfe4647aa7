//! Whether each Stall of a journal is justified: a Stall stands where the action after it had no lawful reply.
#![tactic(auto)]

mod journal;
mod points;
mod walk;

pub use journal::broken_stalls;
