//! The top call of the second program: from the words of the command line and the bytes of a file to what the file's
//! program shows under many lists of picks.
#![tactic(auto)]

mod deliver;
mod judge;
mod plan;
mod top;
mod verdict;

pub use top::outcomes_main;
