//! A record, judged by its bytes: what they say of a program, and what is written of it.
#![tactic(auto)]

mod judging;
mod judgment;
mod text;

pub use judging::{judge_record, one_judgment};
pub use judgment::Judgment;
pub use text::{judgment_line, judgment_status, judgment_text};
