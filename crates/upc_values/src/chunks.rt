//! A list in chunks of 4,096 members, so that growth moves none of them.

ghost use Rattle.std.specs.Prelude.{◌≡◌, ◌+◌, ◌-◌, ◌<◌, ◌≤◌, ◌==◌, [], ◌∷◌, ◌++◌, length, slice_get, OnOk};
ghost use Rattle.std.specs.Prelude.{option_copied};
ghost use Rattle.std.specs.Map.Iter.{ShowsInOrder, deref};

use crate::members::Members;
use std::alloc::{AllocError as OutOfMemory, Global};
use std::marker::Model;
use std::mem::replace;

// How many members a chunk has.
const CHUNK: usize = 4096;

/// A list whose members stand in chunks of 4,096: growth moves no member. Contracts see its members, and for how many
/// more there is room.
#[derive(Drop)]
pub struct Chunks<T> {
    full: Vec<Vec<T>>,
    last: Vec<T>,
}

impl<T> Model for Chunks<T> {
    ghost use Rattle.std.specs.Prelude.{◌≡◌, ◌⊎◌, ◌-◌, ◌≤◌, ◌^◌, length, vec_capacity};
    ghost use Rattle.upc_values.specs.layer.Chunks.{Roomy, roomy, joined, AreFull};

    ghost Value = { Roomy T };

    ghost view = { λ c. roomy (joined c.full.items c.last.items) (vec_capacity c.last - length c.last.items) };

    ghost invariant = { λ c. AreFull c.full.items × (length c.full.items ≤ 2 ^ 50)
        × ((vec_capacity c.last ≡ 0) ⊎ (vec_capacity c.last ≡ 4096)) };
}

impl<T> Chunks<T> {
    /// The empty list. It takes no memory.
    pub fn new(alloc: Global) -> Self
        ensures { result.items ≡ [] }
    {
        Chunks {
            full: Vec::new(alloc),
            last: Vec::new(alloc),
        }
    }

    /// The allocator that the list takes its memory from.
    pub fn allocator(&self) -> Global {
        *self.last.allocator()
    }

    /// How many members there are.
    pub fn len(&self) -> usize
        ensures { result ≡ length self.now.items }
    {
        self.full.len() * CHUNK + self.last.len()
    }

    /// Whether there is no member.
    pub fn is_empty(&self) -> bool
        ensures { result ≡ (length self.now.items == 0) }
    {
        self.len() == 0
    }

    /// The member of this number.
    pub fn get(&self, index: usize) -> Option<&T>
        ensures { option_copied result ≡ slice_get self.now.items index }
    {
        match self.full.get(index / CHUNK) {
            Some(chunk) => chunk.get(index % CHUNK),
            None => self.last.get(index - self.full.len() * CHUNK),
        }
    }

    /// The last member.
    pub fn last(&self) -> Option<&T>
        ensures { option_copied result ≡ slice_get self.now.items (length self.now.items - 1) }
    {
        let count = self.len();
        if count == 0 {
            None
        } else {
            self.get(count - 1)
        }
    }

    /// Takes room for one more member. No member is moved.
    pub fn reserve(&mut self) -> Result<(), OutOfMemory>
    where
        T: Drop,
        ensures items { self.new.items ≡ self.old.items }
        ensures ok { OnOk result (0 < self.new.room) }
    {
        if self.last.len() < self.last.capacity() {
            return Ok(());
        }
        if self.full.len() >= 1 << 50 {
            return Err(OutOfMemory);
        }
        let alloc = *self.last.allocator();
        self.full.reserve(1)?;
        let next = Vec::with_capacity(alloc, CHUNK)?;
        if self.last.len() == CHUNK {
            let full = replace(&mut self.last, next);
            self.full.push_reserved(full);
        } else {
            self.last = next;
        }
        Ok(())
    }

    /// Adds a member, for which there is room. It takes no memory.
    pub fn push_reserved(&mut self, member: T)
        requires { 0 < self.old.room }
        ensures { self.new.items ≡ self.old.items ++ member ∷ [] }
    {
        self.last.push_reserved(member);
    }

    /// The members, from the first on.
    pub fn iter(&self) -> Members<'_, T>
        ensures rest { result ≡ self.now.items }
        ensures runs { ShowsInOrder (deref {X = T}) }
    {
        Members::of(self.full.as_slice(), self.last.as_slice())
    }
}
