//! What the lists of a run with a copy of the shared memory for each thread keep (UPC Appendix B).
#![tactic(auto)]

mod law;

pub use law::{copies_agree, lists_are_kept};
