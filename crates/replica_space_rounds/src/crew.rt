//! The workers of a run.

use replica_space_acts::Replicas;
use replica_space_tasks::ReplicaWorker;

/// The workers of a run, by number of thread, and the run.
#[derive(Drop)]
pub struct Crew {
    pub workers: Vec<ReplicaWorker>,
    pub run: Replicas,
}
