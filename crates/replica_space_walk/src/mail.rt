//! What an action does to what the threads have, and the mail that waits in the end.

ghost use Rattle.std.specs.Prelude.{◌≡◌, ◌<◌, ◌==◌, ℕ, cond, length, OnOk};
ghost use Rattle.replica_space.specs.Spaces as said;
ghost use Rattle.replica_space_rows.specs.layer.Rows.{with_members};
ghost use Rattle.replica_space_copies.specs.layer.Copies.{space_of, threads_of};
ghost use Rattle.replica_space_copies.specs.layer.Same.{IsSame};
ghost use Rattle.replica_space_walk.specs.code.Walking.{row_of, wrote, with_mail_of, with_oldest};

use replica_space_copies::Copies;
use replica_space_rows::Row;
use std::alloc::AllocError as OutOfMemory;
use upc_values::Action;

/// Before an action: the clocks meet, where it is synchronising.
pub(crate) fn meet_for(copies: &mut Copies, synchronising: bool)
    ensures many { threads_of copies.new ≡ threads_of copies.old }
    ensures met { IsSame (threads_of copies.old) (space_of copies.new)
        (cond synchronising (said.met (threads_of copies.old) (space_of copies.old)) (space_of copies.old)) }
{
    if synchronising {
        copies.meet();
    }
}

/// A thread's action writes, if it is a write: a relaxed one is sent, a strict one is spread.
pub(crate) fn write(
    copies: &mut Copies,
    thread: u32,
    index: u32,
    action: &Action,
) -> Result<(), OutOfMemory>
    requires { thread < threads_of copies.old }
    ensures many { threads_of copies.new ≡ threads_of copies.old }
    ensures wrote { OnOk result (IsSame (threads_of copies.old) (space_of copies.new)
        (wrote thread index action.now (space_of copies.old))) }
{
    match action {
        Action::Write {
            strict: true,
            loc,
            value,
        } => {
            copies.reserve()?;
            copies.spread(thread, index, *loc, *value);
        }
        Action::Write {
            strict: false,
            loc,
            value,
        } => copies.send(thread, index, *loc, *value)?,
        _ => {}
    }
    Ok(())
}

/// Puts the oldest message that waits for a thread from another one into its list, if there is one.
pub(crate) fn place_oldest(
    rows: &mut [Row],
    copies: &Copies,
    to: u32,
    from: u32,
) -> Result<(), OutOfMemory>
    requires even { length rows.old ≡ threads_of copies.now }
    requires to { to < threads_of copies.now }
    requires from { from < threads_of copies.now }
    ensures many { length rows.new ≡ length rows.old }
    ensures lists { OnOk result ((t : ℕ) → t < length rows.old → row_of t rows.new ≡ cond (t == to)
        (with_oldest ((space_of copies.now).mail to from) (row_of t rows.old)) (row_of t rows.old)) }
{
    if let Some(message) = copies.letter(to, from, 0) {
        rows[to as usize].put(&message)?;
    }
    Ok(())
}

// Puts the messages that wait for a thread from another one into its list, oldest first.
fn place_from(row: &mut Row, copies: &Copies, to: u32, from: u32) -> Result<(), OutOfMemory>
    requires to { to < threads_of copies.now }
    requires from { from < threads_of copies.now }
    ensures { OnOk result (row.new ≡ with_members ((space_of copies.now).mail to from) row.old) }
{
    for number in 0..copies.mail(to, from) {
        if let Some(message) = copies.letter(to, from, number) {
            row.put(&message)?;
        }
    }
    Ok(())
}

/// Puts the messages that wait for a thread from so many threads into its list, by sender, oldest first.
pub(crate) fn place_all(
    row: &mut Row,
    copies: &Copies,
    to: u32,
    threads: u32,
) -> Result<(), OutOfMemory>
    requires to { to < threads_of copies.now }
    requires all { threads ≡ threads_of copies.now }
    ensures { OnOk result (row.new ≡ with_mail_of threads ((space_of copies.now).mail to) row.old) }
{
    for from in 0..threads {
        place_from(row, copies, to, from)?;
    }
    Ok(())
}
