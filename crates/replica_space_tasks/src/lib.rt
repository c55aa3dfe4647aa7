//! Workers: a thread's machine, which acts on a memory in which each thread has its own copy (UPC 5.1.2.3, Appendix B).
#![tactic(auto)]

mod law;
mod worker;

pub use law::what_workers_keep;
pub use worker::ReplicaWorker;
