//! The races of a journal, location by location (UPC Appendix B).
#![tactic(auto)]

mod law;
mod report;

pub use law::{shown_is_reported, sights_show_races};
pub use report::{Race, Races, Report};
