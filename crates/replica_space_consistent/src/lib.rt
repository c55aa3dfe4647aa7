//! The orders of every run with a copy of the memory for each thread satisfy UPC's memory model (UPC Appendix B).
#![tactic(auto)]

mod law;

pub use law::orders_are_consistent;
