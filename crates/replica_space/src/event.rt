//! What happens in a run with a copy for each thread.

use upc_values::{Action, Chunked, Reply, Strands};

/// What a thread did: an action of its own, by its number there, with its reply; or that it delivered the oldest
/// message that waited for thread `to` from thread `from`.
#[derive(Drop)]
pub enum Deed {
    Did {
        index: u32,
        action: Action,
        reply: Reply,
    },
    Delivered {
        to: u32,
        from: u32,
    },
}

/// One event of a run: a thread, and what it did.
#[derive(Drop)]
pub struct Event {
    pub by: u32,
    pub deed: Deed,
}

/// The events of a run, in chunks.
pub type Events = Chunked<Event>;

/// A run: the number of threads, the ticks and items that each thread was allowed, the strands, and the events.
#[derive(Drop)]
pub struct ReplicaJournal {
    pub threads: u32,
    pub budget: u64,
    pub actions: u64,
    pub strands: Strands,
    pub events: Events,
}
