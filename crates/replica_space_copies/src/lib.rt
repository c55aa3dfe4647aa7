//! What the threads of a run have, each its own copy of the shared memory, and the mail between them (UPC 5.1.2.3,
//! Appendix B).
#![tactic(auto)]

mod clocks;
mod copies;
mod held;
mod outbox;

pub use copies::Copies;
