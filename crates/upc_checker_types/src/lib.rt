//! The types that specifiers, qualifiers, stars and sizes form, and the members and parameters that have them.
#![tactic(auto)]

pub mod members;
pub mod shaped;
pub mod specified;
mod words;
