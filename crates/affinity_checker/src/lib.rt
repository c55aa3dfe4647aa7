//! Where `break`, `continue` and `return` may stand (C99 6.8.6, UPC 6.6.2).
#![tactic(auto, using(crate::proofs::Firsts::first_append))]

mod around;
mod fault;

pub use fault::forall_fault;
