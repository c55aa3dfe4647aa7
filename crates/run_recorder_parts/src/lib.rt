//! The parts of a run's text, read back one after the other: words, actions, items, ends, threads, sections and orders.
#![tactic(auto)]

mod actions;
mod composed;
mod ends;
mod fail;
mod fields;
mod head;
mod items;
mod limits;
mod names;
mod parts;
mod series;
mod strands;

pub use fail::Fail;
pub use head::{Head, read_head};
pub use limits::Limits;
pub use names::{Name, section};
pub use parts::{Parts, expect, split};
pub use series::{Part, many};
