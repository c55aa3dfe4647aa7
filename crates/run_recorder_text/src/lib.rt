//! The text of a whole run: its numbers, what each thread did, its history and its orders, line by line.
#![tactic(auto)]

mod actions;
mod items;
mod lines;
pub mod put;
mod short;
mod values;
mod writing;

pub use lines::op;
pub use short::{MOST_ENTRIES, MOST_ITEMS, is_short};
pub use values::loc;
pub use writing::render;
