//! The text of a run's races, line by line.
#![tactic(auto)]

mod lines;

pub use lines::report_text;
