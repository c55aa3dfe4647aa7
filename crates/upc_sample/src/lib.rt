//! A source that is made from a number, as large as one likes.
#![tactic(auto)]

mod source;

pub use source::sample;
