//! The shared heap: which objects there are, and what their cells hold.
#![tactic(auto)]

mod allocation;
mod beginning;
mod cells;
mod heap;
mod page;
mod page_number;
mod pages;

pub use beginning::Beginning;
pub use heap::Heap;
