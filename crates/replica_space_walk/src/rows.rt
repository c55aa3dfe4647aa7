//! The lists of all threads.

ghost use Rattle.std.specs.Prelude.{◌≡◌, ◌<◌, ◌==◌, ◌||◌, ℕ, cond, [], length, replicate, IfOk, OnOk};
ghost use Rattle.upc_values.specs.Operations.{access};
ghost use Rattle.replica_space_rows.specs.layer.Rows.{with_access};
ghost use Rattle.replica_space_walk.specs.code.Walking.{row_of};

use replica_space::Stamp;
use replica_space_rows::Row;
use std::alloc::{AllocError as OutOfMemory, Global};
use upc_values::{Action, Reply};

/// The empty list for each of so many threads.
pub(crate) fn no_rows(alloc: Global, threads: u32) -> Result<Vec<Row>, OutOfMemory>
    ensures { IfOk result (λ rows. rows.items ≡ replicate threads []) }
{
    let mut rows = Vec::new(alloc);
    for _ in 0..threads {
        rows.push(Row::new(alloc))?;
    }
    Ok(rows)
}

// Adds the operations of an action with its reply and this stamp to the list of the stamp's thread.
fn push_own(
    rows: &mut [Row],
    index: u32,
    action: &Action,
    reply: &Reply,
    stamp: Stamp,
) -> Result<(), OutOfMemory>
    requires { stamp.thread < length rows.old }
    ensures many { length rows.new ≡ length rows.old }
    ensures lists { OnOk result ((t : ℕ) → t < length rows.old → row_of t rows.new ≡ cond (t == stamp.thread)
        (with_access stamp index (access action.now reply.now) (row_of t rows.old)) (row_of t rows.old)) }
{
    rows[stamp.thread as usize].push(index, action, reply, stamp)
}

// Adds the operations of an action with its reply and this stamp to all lists.
fn push_all(
    rows: &mut [Row],
    index: u32,
    action: &Action,
    reply: &Reply,
    stamp: Stamp,
) -> Result<(), OutOfMemory>
    ensures many { length rows.new ≡ length rows.old }
    ensures lists { OnOk result ((t : ℕ) → t < length rows.old → row_of t rows.new
        ≡ with_access stamp index (access action.now reply.now) (row_of t rows.old)) }
{
    for thread in 0..rows.len() {
        rows[thread].push(index, action, reply, stamp)?;
    }
    Ok(())
}

/// Adds the operations of an action with its reply and this stamp: to all lists, or to that of the stamp's thread
/// alone.
pub(crate) fn push(
    rows: &mut [Row],
    all: bool,
    index: u32,
    action: &Action,
    reply: &Reply,
    stamp: Stamp,
) -> Result<(), OutOfMemory>
    requires { stamp.thread < length rows.old }
    ensures many { length rows.new ≡ length rows.old }
    ensures lists { OnOk result ((t : ℕ) → t < length rows.old → row_of t rows.new
        ≡ cond (all || (t == stamp.thread))
        (with_access stamp index (access action.now reply.now) (row_of t rows.old)) (row_of t rows.old)) }
{
    if all {
        push_all(rows, index, action, reply, stamp)
    } else {
        push_own(rows, index, action, reply, stamp)
    }
}
