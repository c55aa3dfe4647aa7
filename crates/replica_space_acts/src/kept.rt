//! A run as a world that threads take in turns.

use crate::replicas::Replicas;
use memory_history::Beginning;
use replica_space::Event;
use turn_cell::Kept;

impl Kept for Replicas {
    type Member = Event;

    type Opening = Beginning;

    ghost members = { λ r. r.1 };

    ghost opening = { λ r. r.0 };

    ghost number = { λ e. e.by };

    fn len(&self) -> u64 {
        Replicas::len(self)
    }
}
