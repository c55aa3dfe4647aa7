//! How far a thread has come by the meaning of its source: its store, ticks, actions, replies, and each step on them.
#![tactic(auto)]

mod accesses;
mod barriers;
mod blocks;
mod bodies;
mod called;
mod library;
mod memory;
mod objects;
mod operated;
mod operations;
mod progress;
mod together;

pub use progress::{Progress, Step};
pub use upc_meaning_settings::{Runner, Setting, Shapes, is_numeric};
