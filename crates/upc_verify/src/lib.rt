//! Whether a record of a program is sound: judged by itself, without trust in any run.
#![tactic(auto)]

mod meant;
mod record;

pub use record::{sound_is_a_sound_run, verify};
pub use upc_verify_judge::Verdict;
