//! The marks of one location.

ghost use Rattle.std.specs.Prelude.{◌≡◌, [], OnOk, OnErr};
ghost use Rattle.replica_space_orders.specs.layer.Finding.{Ascend};
ghost use Rattle.replica_space_marks.specs.layer.Marks.{IsFound, no_marks, with_mark};

use replica_space::Stamp;
use replica_space_orders::first_later;
use std::alloc::{AllocError as OutOfMemory, Global};
use std::marker::Model;

/// The marks of one location. Contracts see the stamps and the slots.
#[derive(Drop)]
pub struct Marks {
    stamps: Vec<Stamp>,
    slots: Vec<usize>,
}

impl Model for Marks {
    ghost use Rattle.replica_space_marks.specs.layer.Marks.{MarksState};

    ghost Value = { MarksState };

    ghost view = { λ m. record { stamps = m.stamps.items; slots = m.slots.items } };
}

impl Marks {
    // No mark. It takes no memory.
    pub(crate) fn new(alloc: Global) -> Marks
        ensures { result ≡ no_marks }
    {
        Marks {
            stamps: Vec::new(alloc),
            slots: Vec::new(alloc),
        }
    }

    // The slot of the first mark with a later stamp.
    pub(crate) fn find(&self, stamp: &Stamp) -> Option<usize>
        requires { Ascend self.now.stamps }
        ensures { IsFound self.now stamp.now result }
    {
        let first = first_later(self.stamps.as_slice(), stamp);
        self.slots.get(first).copied()
    }

    // Adds a mark as the last one.
    pub(crate) fn add(&mut self, stamp: Stamp, slot: usize) -> Result<(), OutOfMemory>
        ensures added { OnOk result (self.new ≡ with_mark stamp slot self.old) }
        ensures kept { OnErr result (self.new ≡ self.old) }
    {
        self.stamps.reserve(1)?;
        self.slots.reserve(1)?;
        self.stamps.push_reserved(stamp);
        self.slots.push_reserved(slot);
        Ok(())
    }
}
