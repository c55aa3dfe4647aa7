//! What a task is.

ghost use Rattle.turn_cell.specs.layer.Seats.{IsFree};
ghost use Rattle.upc_values.specs.declared.journal.Entry.{Entry};

use crate::worker::Worker;
use memory_history::World;
use turn_cell::Seat;

/// A thread's machine, record and write buffer, with the seat by which it takes its turns. The seat holds no turn
/// between two calls.
///
/// A task is ready where it has a wish that has not been answered; a new task is not ready. After a call has answered
/// want of memory a task is only dropped, and what its seat has added stays in the history.
#[derive(Drop)]
pub struct Task {
    pub(crate) worker: Worker,
    pub(crate) seat: Seat<World>,
    ghost free: { IsFree (λ (e : Entry). e.thread) seat },
}
