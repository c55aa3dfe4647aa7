//! A worker at its seat.

use crate::part::Part;
use replica_space_tasks::ReplicaWorker;
use turn_cell::Seat;

/// A thread's worker, with the seat by which it takes its turns in a part of a run, and whether it has answered want of
/// memory.
#[derive(Drop)]
pub struct Seated {
    pub worker: ReplicaWorker,
    pub seat: Seat<Part>,
    pub failed: bool,
}
