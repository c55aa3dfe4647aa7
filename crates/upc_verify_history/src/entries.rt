//! Whether the history takes each record as its write buffer drains.

ghost use Rattle.std.specs.Prelude.{◌≡◌, ◌<◌, ◌↔◌, length, IsTrue, IfOk, MatchOption};
ghost use Rattle.upc_values.specs.Drain.{entries_of};
ghost use Rattle.upc_values.specs.History.{EachBelow};
ghost use Rattle.upc_verify_parts.specs.Parts.{Drains, EntriesHold, FailsFirst, HoldsOfEach};

use order_builder::drain;
use std::alloc::Global;
use upc_text::OutOfMemory;
use upc_values::{Entries, Entry, Journal, same_action, same_reply};

// Whether both are one entry.
fn same_entry(a: &Entry, b: &Entry) -> bool
    ensures { IsTrue result ↔ (a.now ≡ b.now) }
{
    a.thread == b.thread
        && a.index == b.index
        && same_action(&a.action, &b.action)
        && same_reply(&a.reply, &b.reply)
}

// Whether these are the thread's entries in the history, in order.
fn are_entries_of(thread: u32, history: &Entries, entries: &Entries) -> bool
    ensures { IsTrue result ↔ (entries_of thread history.now ≡ entries.now) }
{
    let mut left = entries.iter();
    for entry in history.iter() {
        if entry.thread == thread {
            match left.next() {
                Some(other) => {
                    if !same_entry(entry, other) {
                        return false;
                    }
                }
                None => return false,
            }
        }
    }
    left.next().is_none()
}

// Whether the thread's entries in the history are what its record emits.
fn drains(alloc: Global, journal: &Journal, thread: u32) -> Result<bool, OutOfMemory>
    requires { thread < length journal.now.strands }
    ensures { IfOk result (λ b. IsTrue b ↔ Drains journal.now thread) }
{
    let items = &journal.strands.as_slice()[thread as usize].items;
    match drain(alloc, thread, items)? {
        Some(entries) => Ok(are_entries_of(thread, &journal.history, &entries)),
        None => Ok(false),
    }
}

// Whether each entry is of one of so many threads.
fn are_below(threads: u32, history: &Entries) -> bool
    ensures { IsTrue result ↔ EachBelow threads history.now }
{
    history.iter().all(|entry| entry.thread < threads)
}

/// The first thread whose record does not emit its entries in the history, thread 0 where an entry is of none of the
/// threads, none where all hold.
pub fn broken_entries(alloc: Global, journal: &Journal) -> Result<Option<u32>, OutOfMemory>
    requires some { 0 < journal.now.threads }
    requires many { length journal.now.strands ≡ journal.now.threads }
    ensures { IfOk result (λ broken. MatchOption broken
        (HoldsOfEach journal.now.threads (EntriesHold journal.now.threads journal.now))
        (FailsFirst journal.now.threads (EntriesHold journal.now.threads journal.now))) }
{
    if !are_below(journal.threads, &journal.history) {
        return Ok(Some(0));
    }
    for thread in 0..journal.threads {
        let holds = drains(alloc, journal, thread)?;
        if !holds {
            return Ok(Some(thread));
        }
    }
    Ok(None)
}
