//! The top call: from the words of the command line and the bytes of a file to output, a status and a journal.
#![tactic(auto)]

mod deliver;
mod done;
mod front;
mod judge;
mod judged;
mod raced;
mod record;
mod replicated;
mod source;
mod top;
mod verdict;

pub use done::Done;
pub use front::{one_reading, read_source};
pub use top::upc_main;
