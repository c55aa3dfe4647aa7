//! The pending writes of a thread.

ghost use Rattle.std.specs.Prelude.{◌≡◌, ◌≤◌, ◌<◌, ◌↔◌, [], ◌∷◌, ◌++◌, length, All, true, Some, None, is_some};
ghost use Rattle.std.specs.Prelude.{IfOk, IfSome, IsSome, IsNone, false, option_map, option_to_list, replicate};
ghost use Rattle.std.specs.Prelude.{slice_index_or};
ghost use Rattle.write_buffer.specs.declared.pending.Pending.{Pending};
ghost use Rattle.upc_values.specs.Scalars as scalars;
ghost use Rattle.write_buffer.specs.layer.Buffer.{youngest, replaced, last_place, AreApart};
ghost use Rattle.write_buffer.specs.code.Counts as said;
ghost use Rattle.write_buffer.specs.code.Counts.{IsCounted};

use crate::pending::Pending;
use block_layout::limits;
use circular_buffer::HeapCircularBuffer;
use std::alloc::{AllocError as OutOfMemory, Global};
use std::marker::Model;
use upc_values::{Loc, Scalar};

/// How many writes may be pending.
pub const PLACES: usize = limits::PENDING_WRITES as usize;

/// The pending writes of a thread, oldest first, and at 256 places how many of them are counted there. Contracts see
/// the list.
#[derive(Drop)]
pub struct WriteBuffer {
    ring: HeapCircularBuffer<Pending>,
    counts: [u8; 256],
}

impl Model for WriteBuffer {
    ghost use Rattle.std.specs.Prelude.{List, length, ◌≤◌, ◌≡◌};
    ghost use Rattle.write_buffer.specs.declared.pending.Pending.{Pending};
    ghost use Rattle.write_buffer.specs.layer.Buffer.{AreApart};
    ghost use Rattle.write_buffer.specs.code.Counts.{IsCounted};

    ghost Value = { List Pending };

    ghost view = { λ b. b.ring.items };

    ghost invariant = { λ b. (length b.ring.items ≤ 64) × (b.ring.capacity ≡ 64) × IsCounted b.ring.items b.counts
        × AreApart b.ring.items };
}

// Where a location is counted.
fn place_of(loc: Loc) -> usize
    ensures place { result ≡ said.place_of loc }
    ensures below { result < 256 }
{
    let sum = u128::from(loc.object) * 31 + u128::from(loc.thread) * 7 + u128::from(loc.offset) / 4;
    (sum % 256) as usize
}

// Nothing is counted.
fn no_counts() -> [u8; 256]
    ensures { result ≡ replicate 256 0 }
{
    [0; 256]
}

impl WriteBuffer {
    /// An empty buffer with all its places. No later call takes memory.
    pub fn make(alloc: Global) -> Result<WriteBuffer, OutOfMemory>
        ensures { IfOk result (λ buffer. buffer ≡ []) }
    {
        Ok(WriteBuffer {
            ring: HeapCircularBuffer::with_capacity(alloc, PLACES)?,
            counts: no_counts(),
        })
    }

    // The place of the youngest pending write of the location.
    #[tactic(auto, using(crate::proofs::Places::looking_back))]
    fn find(&self, loc: Loc) -> Option<usize>
        ensures place { result ≡ last_place loc self.now }
        ensures within { IfSome result (λ at. at < length self.now) }
    {
        if self.counts[place_of(loc)] == 0 {
            return None;
        }
        for at in (0..self.ring.len()).rev() {
            let Some(write) = self.ring.get(at) else {
                unreachable!()
            };
            if write.loc == loc {
                return Some(at);
            }
        }
        None
    }

    /// The write takes the place of the pending write of its location, which is combined into it; else it becomes
    /// pending, as the youngest, and where all places were taken, the oldest leaves and is handed out.
    pub fn store(&mut self, index: u32, loc: Loc, value: Scalar) -> Option<Pending>
        ensures combined { is_some (youngest loc self.old) ≡ true → (result ≡ None)
            × (self.new ≡ replaced (record { index = index; loc = loc; value = value }) self.old) }
        ensures moved { youngest loc self.old ≡ None
            → self.old ++ record { index = index; loc = loc; value = value } ∷ [] ≡ option_to_list result ++ self.new }
        ensures full { IsSome result ↔ (length self.old ≡ 64) × (youngest loc self.old ≡ None) }
    {
        let write = Pending { index, loc, value };
        match self.find(loc) {
            Some(at) => {
                self.replace(at, write);
                None
            }
            None => self.append(write),
        }
    }

    // The write takes the place of the one there, which has its location.
    fn replace(&mut self, at: usize, write: Pending)
        requires { last_place write.loc self.old ≡ Some at }
        ensures { self.new ≡ replaced write self.old }
    {
        let Some(place) = self.ring.get_mut(at) else {
            unreachable!()
        };
        *place = write;
    }

    // The write, of whose location none is pending, becomes pending, as the youngest. Where all places were taken, the
    // oldest leaves and is handed out.
    fn append(&mut self, write: Pending) -> Option<Pending>
        requires { last_place write.loc self.old ≡ None }
        ensures full { IsSome result ↔ (length self.old ≡ 64) }
        ensures moved { self.old ++ write ∷ [] ≡ option_to_list result ++ self.new }
    {
        let oldest = if self.ring.is_full() {
            self.take_oldest()
        } else {
            None
        };
        self.put(write);
        oldest
    }

    // The write, of whose location none is pending, becomes pending, as the youngest, where there is a place.
    fn put(&mut self, write: Pending)
        requires room { length self.old < 64 }
        requires none { last_place write.loc self.old ≡ None }
        ensures { self.new ≡ self.old ++ write ∷ [] }
    {
        let place = place_of(write.loc);
        self.ring.push_back(write);
        self.counts[place] += 1;
    }

    /// The number and the value of the pending write of the location, none where there is none.
    pub fn forward(&self, loc: Loc) -> Option<(u32, Scalar)>
        ensures youngest { result ≡ option_map (λ p. (p.index, p.value)) (youngest loc self.now) }
        ensures none { IsNone result ↔ All (λ p. scalars.same_loc p.loc loc ≡ false) self.now }
    {
        match self.find(loc) {
            Some(at) => Some(self.read(at)),
            None => None,
        }
    }

    // The number and the value of the write there.
    fn read(&self, at: usize) -> (u32, Scalar)
        requires { at < length self.now }
        ensures { (d : Pending)
            → result ≡ ((slice_index_or self.now at d).index, (slice_index_or self.now at d).value) }
    {
        let Some(write) = self.ring.get(at) else {
            unreachable!()
        };
        (write.index, write.value)
    }

    /// The oldest pending write, which leaves, none where the buffer is empty.
    pub fn take_oldest(&mut self) -> Option<Pending>
        ensures empty { IsNone result ↔ (self.old ≡ []) }
        ensures moved { self.old ≡ option_to_list result ++ self.new }
    {
        let oldest = self.ring.pop_front()?;
        let place = place_of(oldest.loc);
        self.counts[place] -= 1;
        Some(oldest)
    }

    /// A law: no two pending writes have one location.
    pub fn keeps(&self)
        ensures { AreApart self.now }
    {
        let _ = &self.ring;
    }

    /// How many writes are pending.
    pub fn len(&self) -> u32
        ensures len { result ≡ length self.now }
        ensures most { result ≤ 64 }
    {
        self.ring.len() as u32
    }
}
