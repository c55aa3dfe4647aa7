//! What one thread did, and how it ended.

use crate::action::{Action, Reply};
use crate::chunked::Chunked;
use upc_text::Place;

/// One item of a thread's record.
#[derive(Drop)]
pub enum Item {
    /// An action with its reply.
    Did(Action, Reply),
    /// The next action was not legal.
    Stall,
}

/// A thread's record: its items in chunks.
pub type Items = Chunked<Item>;

/// How a thread's source ends on given replies.
#[derive(Drop)]
pub enum ToldEnd {
    /// No reply is left for this action.
    Wants(Action),
    /// The reply of this number has no form that its action allows.
    Misfit(u32),
    /// `main` returned this value, and the termination barrier was passed.
    Ended(i32),
    /// `upc_global_exit` was called with this value.
    Exit(i32),
    /// A run error, by number, with the place of its construct.
    Fault(u8, Place),
    /// The ticks reached the budget.
    OutOfTicks,
}

/// How a thread ended.
#[derive(Drop)]
pub enum End {
    Ended(i32),
    Fault(u8, Place),
    Budget,
    ActionsFull,
    Exit(i32),
    /// Another thread ended the run.
    Halted,
    /// Every thread that is not Ended wants what is not legal; this one wants this.
    Deadlocked(Action),
}
