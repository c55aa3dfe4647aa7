//! Runs in which each thread has its own copy of the shared memory, and mail from every other thread: events, messages,
//! and what such a run is (UPC 5.1.2.3, Appendix B).
#![tactic(auto)]

mod event;
mod law;
mod message;

pub use event::{Deed, Event, Events, ReplicaJournal};
pub use law::rows_hold;
pub use message::{Message, Stamp};
