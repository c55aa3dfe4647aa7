//! Clocks over a history: what comes before what, in numbers (UPC Appendix B).
#![tactic(auto)]

mod channel;
mod law;

pub use channel::{Channel, hearing, telling};
pub use law::clocks_hold_what_is_known;
