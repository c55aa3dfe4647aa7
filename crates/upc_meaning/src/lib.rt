//! What a thread of a program does, whatever it is answered, straight from the typed tree.
#![tactic(auto)]

mod course;
mod running;
mod threads;

pub use course::{Outcome, Told, replay, replay_whole};
