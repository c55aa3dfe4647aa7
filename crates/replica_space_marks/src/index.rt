//! The marks of all locations.

ghost use Rattle.std.specs.Prelude.{◌≡◌, cond, OnOk, OnErr};
ghost use Rattle.block_layout.specs.declared.place.Loc.{Loc};
ghost use Rattle.upc_values.specs.Scalars.{same_loc};
ghost use Rattle.replica_space_orders.specs.layer.Finding.{Ascend};
ghost use Rattle.replica_space_marks.specs.layer.Marks.{IsFound, no_marks, with_mark};
ghost use Rattle.replica_space_marks.specs.layer.Index as said;
ghost use Rattle.replica_space_marks.specs.layer.Index.{marks_at};

use crate::marks::Marks;
use replica_space::Stamp;
use std::alloc::{AllocError as OutOfMemory, Global};
use std::collections::HashMap;
use upc_values::Loc;

/// A location as a key.
#[derive(Clone, Copy, PartialEq, Eq, Hash)]
pub struct Key {
    object: u32,
    thread: u32,
    offset: u32,
}

fn key_of(loc: Loc) -> Key
    ensures { result ≡ said.key_of loc }
{
    Key {
        object: loc.object,
        thread: loc.thread,
        offset: loc.offset,
    }
}

/// The marks of all locations.
#[derive(Drop)]
pub struct Index {
    map: HashMap<Key, Marks>,
}

impl Index {
    /// No location has a mark. It takes no memory.
    pub fn new(alloc: Global) -> Index
        ensures { (l : Loc) → marks_at result l ≡ no_marks }
    {
        Index {
            map: HashMap::new(alloc),
        }
    }

    /// The slot of the first mark of a location with a later stamp; the stamps of its marks ascend.
    pub fn find(&self, loc: Loc, stamp: &Stamp) -> Option<usize>
        requires { Ascend (marks_at self.now loc).stamps }
        ensures { IsFound (marks_at self.now loc) stamp.now result }
    {
        match self.map.get(&key_of(loc)) {
            Some(marks) => marks.find(stamp),
            None => None,
        }
    }

    /// Adds a mark of a location as its last one. After want of memory the marks are as they were.
    pub fn add(
        &mut self,
        alloc: Global,
        loc: Loc,
        stamp: Stamp,
        slot: usize,
    ) -> Result<(), OutOfMemory>
        ensures added { OnOk result ((l : Loc) → marks_at self.new l
            ≡ cond (same_loc loc l) (with_mark stamp slot (marks_at self.old l)) (marks_at self.old l)) }
        ensures kept { OnErr result ((l : Loc) → marks_at self.new l ≡ marks_at self.old l) }
    {
        let key = key_of(loc);
        if let Some(marks) = self.map.get_mut(&key) {
            return marks.add(stamp, slot);
        }
        let mut marks = Marks::new(alloc);
        marks.add(stamp, slot)?;
        self.map.insert(key, marks)?;
        Ok(())
    }
}
