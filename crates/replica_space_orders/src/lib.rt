//! The orders of a run with a copy of the shared memory for each thread: so far the strict list, and where a stamp
//! stands among others (UPC Appendix B).
#![tactic(auto)]

mod find;
mod strict;

pub use find::first_later;
pub use strict::strict_order;
