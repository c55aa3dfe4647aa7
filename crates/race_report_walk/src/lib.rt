//! The races of a run (UPC Appendix B).
#![tactic(auto)]

mod walk;

pub use race_report_places::{Race, Races, Report};
pub use walk::races;
