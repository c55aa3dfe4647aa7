//! Where the writes of each location have come to the end of a list, by their stamps: the place of an earlier write is
//! found by halving.
#![tactic(auto)]

mod index;
mod marks;

pub use index::Index;
