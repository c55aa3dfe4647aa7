//! The write buffer of a thread: its relaxed writes that are not committed yet.
#![tactic(auto)]

mod buffer;
mod pending;

pub use buffer::{PLACES, WriteBuffer};
pub use pending::Pending;
