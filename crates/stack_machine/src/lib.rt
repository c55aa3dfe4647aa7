//! The machine that runs code reply by reply.
#![tactic(auto)]

mod accesses;
mod call_work;
mod calls;
mod collective_calls;
mod going;
mod jumps;
mod laws;
mod library;
mod machine;
mod memory_calls;
mod object_arms;
mod objects;
mod open_calls;
mod progress;
mod receiving;
mod runner;
mod runs;
mod steps;
mod threads;
mod value_arms;
mod value_work;
mod walking;
mod wish;

pub use laws::{
    calls_are_entered, calls_go_by_replies, instructions_go_on, machines_go_by_replies,
};
pub use machine::Machine;
pub use wish::Wish;
