//! The text of a whole run, written and read back.
#![tactic(auto)]

mod entries;
mod fail;
mod reading;

pub use fail::ReadRecord;
pub use reading::{one_run_each_text, read_record};
pub use run_recorder_text::{is_short, render};
