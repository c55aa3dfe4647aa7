//! The clocks of a walk over a history, as tables (UPC Appendix B).
#![tactic(auto)]

mod channels;
mod counts;
mod key;
mod places;
mod row;
mod tables;

pub use places::Places;
pub use row::Row;
pub use tables::Tables;
