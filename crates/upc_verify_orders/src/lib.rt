//! Whether given orders make a journal's operations UPC consistent, by one walk for each order (UPC Appendix B).
#![tactic(auto)]

mod accesses;
mod find;
mod known;
mod list;
mod numbers;
mod operation;
mod order;
mod own;
mod part;
mod place;
mod program;
mod reads;
mod table;
mod values;
mod verdict;
mod walk;

pub use accesses::operations_of;
pub use operation::Operation;
pub use place::Place;
pub use verdict::{broken_order, orders_are_consistent};
