//! What the clocks of a history tell: what comes before what (UPC Appendix B).
#![tactic(auto)]

mod law;

pub use law::{clocks_show_races, clocks_tell_what_comes_before, what_comes_before_stands_before};
