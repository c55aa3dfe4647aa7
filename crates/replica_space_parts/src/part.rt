//! A part of a run, as a world that threads take in turns.

ghost use Rattle.replica_space_parts.specs.layer.Parts.{added_in, begun_of};

use replica_space::Event;
use replica_space_acts::Replicas;
use turn_cell::Kept;

/// A run, with how many events it had when this part of it began. As a world it stands for the events that were added
/// since, and for what it began with.
#[derive(Drop)]
pub struct Part {
    pub run: Replicas,
    pub before: u64,
}

impl Kept for Part {
    type Member = Event;

    type Opening = Part;

    ghost members = { added_in };

    ghost opening = { begun_of };

    ghost number = { λ e. e.by };

    fn len(&self) -> u64 {
        let all = self.run.len();
        if all < self.before {
            0
        } else {
            all - self.before
        }
    }
}
