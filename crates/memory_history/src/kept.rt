//! A memory as a world that threads take in turns.

use crate::world::World;
use shared_heap::Beginning;
use turn_cell::Kept;
use upc_values::Entry;

impl Kept for World {
    type Member = Entry;

    type Opening = Beginning;

    ghost members = { λ w. w.1 };

    ghost opening = { λ w. w.0 };

    ghost number = { λ e. e.thread };

    fn len(&self) -> u64 {
        World::len(self)
    }
}
