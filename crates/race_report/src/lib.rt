//! Races of a run: what comes before what, and the serial order of a run without races (UPC Appendix B).
#![tactic(auto)]

mod law;
mod own;
mod serial;

pub use law::serial_order_is_right;
pub use serial::serial_order;
