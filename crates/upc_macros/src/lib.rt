//! Directives, and the replacement of macros (C99 6.10).
#![tactic(auto)]

mod continuation;
mod directives;
mod known;
mod lines;
mod output;
mod spelling;
mod table;
mod walk;

pub use lines::{depth_is_enough, expand};
