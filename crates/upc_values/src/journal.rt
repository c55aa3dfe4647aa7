//! A whole run.

use crate::action::{Action, Reply};
use crate::chunked::Chunked;
use crate::listing::Listing;
use crate::record::{End, Items};

/// One event of a run: an action of a thread, by its number there, with its reply.
#[derive(Drop)]
pub struct Entry {
    pub thread: u32,
    pub index: u32,
    pub action: Action,
    pub reply: Reply,
}

/// A history: its entries in chunks.
pub type Entries = Chunked<Entry>;

/// What one thread did, its ticks, and how it ended.
#[derive(Drop)]
pub struct Strand {
    pub items: Items,
    pub ticks: u64,
    pub end: End,
}

/// The threads' strands, by number of thread.
pub type Strands = Listing<Strand>;

/// A run: the number of threads, the ticks and items that each thread was allowed, the strands, and the history.
#[derive(Drop)]
pub struct Journal {
    pub threads: u32,
    pub budget: u64,
    pub actions: u64,
    pub strands: Strands,
    pub history: Entries,
}
