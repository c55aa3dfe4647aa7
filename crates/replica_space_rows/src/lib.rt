//! The list of one thread in a run with copies: operations by their names, and writes in their places (UPC Appendix B).
#![tactic(auto)]

mod member;
mod row;
mod slotted;

pub use member::{Member, Written};
pub use row::Row;
