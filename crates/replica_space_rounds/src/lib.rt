//! Rounds of all threads, at the same time, on a memory in which each has its own copy (UPC 5.1.2.3, Appendix B).
#![tactic(auto)]

mod crew;
mod round;

pub use crew::Crew;
pub use round::go;
