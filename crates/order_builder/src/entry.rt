//! Entries of a thread's record, and the operations that stand in their place.

use crate::names::Names;
use upc_values::{Action, Reply};

/// An entry, with its action and its reply by reference.
#[derive(Clone, Copy)]
pub struct EntryRef<'a> {
    pub thread: u32,
    pub index: u32,
    pub action: &'a Action,
    pub reply: &'a Reply,
}

/// An entry, with the names of the operations that stand in its place, in program order.
#[derive(Drop)]
pub struct KeptCommit<'a> {
    pub entry: EntryRef<'a>,
    pub names: Names,
}
