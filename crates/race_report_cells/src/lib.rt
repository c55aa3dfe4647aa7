//! What a walk over a history keeps of the operations on each location, and the races that it finds (UPC Appendix B).
#![tactic(auto)]

mod cell;
mod cells;
mod found;
mod lasts;

pub use cells::Cells;
