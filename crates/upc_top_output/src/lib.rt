//! What a run writes: its output, its status, the line of its end, and where the shared objects of a program lie.
#![tactic(auto)]

pub mod layout;
pub mod status;
pub mod text;
