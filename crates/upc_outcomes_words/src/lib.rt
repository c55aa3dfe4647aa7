//! The command line `outcomes -T n [--schedules k] [--seed s] [--all n] [--picks LIST [--record]] [--budget n]
//! [--actions n] FILE`, read by `clap`.
#![tactic(auto)]

mod call;
mod command;
mod picks;
mod words;

pub use call::{Call, Plan};
pub use words::read_words;
