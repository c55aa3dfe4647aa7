//! Rounds of tasks over one history, each thread on a thread of its own.
#![tactic(auto)]

mod all;
pub mod begin;
pub mod closing;
mod hands;
mod part;
mod places;
mod posts;
mod threads;

pub use part::round;
pub use threads::run;
