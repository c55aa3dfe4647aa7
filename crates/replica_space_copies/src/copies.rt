//! What all threads have.

ghost use Rattle.std.specs.Prelude.{◌≡◌, ◌≢◌, ◌+◌, ◌<◌, ◌≤◌, ◌==◌, ◌^◌};
ghost use Rattle.std.specs.Prelude.{◌↔◌, ℕ, cond, length, replicate, [], slice_get, slice_index};
ghost use Rattle.std.specs.Prelude.{IsTrue, IfOk, OnOk, OnErr, if◌then◌else◌};
ghost use Rattle.block_layout.specs.declared.place.Loc.{Loc};
ghost use Rattle.replica_space.specs.Spaces as said;
ghost use Rattle.replica_space_copies.specs.layer.Copies.{space_of, threads_of, held_at, written, MaySpread, IsSteady};
ghost use Rattle.replica_space_copies.specs.layer.Same.{IsSame};
ghost use Rattle.replica_space_copies.specs.layer.Counts.{waiting_in};

use crate::clocks::{meet, raise, raise_to};
use crate::held::Held;
use crate::outbox::Outbox;
use replica_space::{Message, Stamp};
use std::alloc::{AllocError as OutOfMemory, Global};
use std::marker::Model;
use upc_values::{Loc, Scalar};

/// What all threads have: their clocks, their copies and the mail between them. Contracts see these, how many messages
/// wait, and how many writes there have been.
#[derive(Drop)]
pub struct Copies {
    clocks: Vec<u64>,
    boxes: Vec<Outbox>,
    held: Held,
    waiting: usize,
    writes: u64,
}

impl Model for Copies {
    ghost use Rattle.replica_space_copies.specs.layer.Copies.{CopiesState};

    ghost Value = { CopiesState };

    ghost use Rattle.replica_space_copies.specs.code.Sound.{AreCopies};

    ghost view = { λ c. record {
      clocks = c.clocks.items;
      boxes = c.boxes.items;
      held = c.held;
      waiting = c.waiting;
      writes = c.writes;
    } };

    ghost invariant = { λ c. AreCopies record {
      clocks = c.clocks.items;
      boxes = c.boxes.items;
      held = c.held;
      waiting = c.waiting;
      writes = c.writes;
    } };
}

// A clock at 0 for each of so many threads.
fn no_clocks(alloc: Global, threads: u32) -> Result<Vec<u64>, OutOfMemory>
    ensures { IfOk result (λ v. v.items ≡ replicate threads 0) }
{
    let mut clocks = Vec::new(alloc);
    for _ in 0..threads {
        clocks.push(0)?;
    }
    Ok(clocks)
}

// A box without messages for each of so many threads.
fn no_mail(alloc: Global, threads: u32) -> Result<Vec<Outbox>, OutOfMemory>
    ensures { IfOk result (λ v. v.items ≡ replicate threads (replicate threads [])) }
{
    let mut boxes = Vec::new(alloc);
    for _ in 0..threads {
        boxes.push(Outbox::make(alloc, threads)?)?;
    }
    Ok(boxes)
}

// The sum of two counts.
fn more(waiting: usize, threads: usize) -> Result<usize, OutOfMemory>
    ensures { IfOk result (λ n. n ≡ waiting + threads) }
{
    waiting.checked_add(threads).ok_or(OutOfMemory)
}

impl Copies {
    /// What so many threads begin with.
    pub fn make(alloc: Global, threads: u32) -> Result<Copies, OutOfMemory>
        ensures many { IfOk result (λ c. threads_of c ≡ threads) }
        ensures begun { IfOk result (λ c. IsSame threads (space_of c) said.begun) }
    {
        let clocks = no_clocks(alloc, threads)?;
        let boxes = no_mail(alloc, threads)?;
        Ok(Copies {
            clocks,
            boxes,
            held: Held::new(alloc),
            waiting: 0,
            writes: 0,
        })
    }

    /// The message that a thread's copy has at a location.
    pub fn get(&self, thread: u32, loc: Loc) -> Option<Message>
        ensures { result ≡ (space_of self.now).copy thread loc }
    {
        self.held.get(thread as usize, loc)
    }

    /// The stamp of a thread's next write. It wants memory where clocks can rise no more.
    pub fn next_stamp(&self, thread: u32) -> Result<Stamp, OutOfMemory>
        requires { thread < threads_of self.now }
        ensures { IfOk result (λ s. s ≡ said.next_stamp thread (space_of self.now)) }
    {
        let clock = self.clocks[thread as usize]
            .checked_add(1)
            .ok_or(OutOfMemory)?;
        Ok(Stamp { clock, thread })
    }

    /// How many messages wait for a thread from another one.
    pub fn mail(&self, to: u32, from: u32) -> usize
        requires to { to < threads_of self.now }
        requires from { from < threads_of self.now }
        ensures { result ≡ length ((space_of self.now).mail to from) }
    {
        self.boxes[from as usize].count(to as usize)
    }

    /// The message of this number of those that wait for a thread from another one, counted from the oldest.
    pub fn letter(&self, to: u32, from: u32, number: usize) -> Option<Message>
        requires to { to < threads_of self.now }
        requires from { from < threads_of self.now }
        ensures { result ≡ slice_get ((space_of self.now).mail to from) number }
    {
        self.boxes[from as usize].get(to as usize, number)
    }

    /// How many messages wait.
    pub fn waiting(&self) -> usize
        ensures value { result ≡ self.now.waiting }
        ensures counted { result ≡ waiting_in (threads_of self.now) (space_of self.now) }
    {
        self.waiting
    }

    /// A relaxed write by a thread: it goes into the thread's own copy, and is sent to each other thread. Where there
    /// is no memory, nothing changes.
    pub fn send(
        &mut self,
        thread: u32,
        index: u32,
        loc: Loc,
        value: Scalar,
    ) -> Result<(), OutOfMemory>
        requires { thread < threads_of self.old }
        ensures many { threads_of self.new ≡ threads_of self.old }
        ensures sent { OnOk result (IsSame (threads_of self.old) (space_of self.new)
            (said.sent (written index loc value (said.next_stamp thread (space_of self.old))) (space_of self.old))) }
        ensures kept { OnErr result (IsSame (threads_of self.old) (space_of self.new) (space_of self.old)) }
    {
        let at = thread as usize;
        let waiting = more(self.waiting, self.clocks.len())?;
        self.held.reserve(waiting)?;
        if self.writes == u64::MAX {
            return Err(OutOfMemory);
        }
        let clock = self.clocks[at] + 1;
        let stamp = Stamp { clock, thread };
        let message = Message {
            index,
            loc,
            value,
            stamp,
        };
        let outbox = &mut self.boxes[at];
        outbox.send(at, message)?;
        self.clocks[at] = clock;
        self.held.put(at, message);
        self.waiting = waiting - 1;
        self.writes += 1;
        Ok(())
    }

    /// Takes room for a strict write. The threads have what they had.
    pub fn reserve(&mut self) -> Result<(), OutOfMemory>
        ensures many { threads_of self.new ≡ threads_of self.old }
        ensures waiting { self.new.waiting ≡ self.old.waiting }
        ensures same { IsSame (threads_of self.old) (space_of self.new) (space_of self.old) }
        ensures ok { OnOk result (MaySpread self.new) }
    {
        let all = more(self.waiting, self.clocks.len())?;
        self.held.reserve(all)?;
        if self.writes == u64::MAX {
            return Err(OutOfMemory);
        }
        Ok(())
    }

    /// The clocks of all threads meet. It takes no memory.
    pub fn meet(&mut self)
        ensures steady { IsSteady self.old self.new }
        ensures waiting { self.new.waiting ≡ self.old.waiting }
        ensures met { IsSame (threads_of self.old) (space_of self.new)
            (said.met (threads_of self.old) (space_of self.old)) }
    {
        meet(&mut self.clocks);
    }

    /// A strict write by a thread, for which there is room: it goes into every copy. It takes no memory.
    pub fn spread(&mut self, thread: u32, index: u32, loc: Loc, value: Scalar)
        requires below { thread < threads_of self.old }
        requires room { MaySpread self.old }
        ensures many { threads_of self.new ≡ threads_of self.old }
        ensures waiting { self.new.waiting ≡ self.old.waiting }
        ensures spread { IsSame (threads_of self.old) (space_of self.new)
            (said.spread (written index loc value (said.next_stamp thread (space_of self.old))) (space_of self.old)) }
    {
        let clock = self.clocks[thread as usize] + 1;
        let stamp = Stamp { clock, thread };
        let message = Message {
            index,
            loc,
            value,
            stamp,
        };
        let threads = self.clocks.len();
        raise(&mut self.clocks);
        self.held.put_in_each(threads, message);
        self.writes += 1;
    }

    /// Delivers the oldest message that waits for a thread from another one, if there is one. It takes no memory.
    pub fn deliver(&mut self, to: u32, from: u32) -> bool
        requires to { to < threads_of self.old }
        requires from { from < threads_of self.old }
        ensures found { IsTrue result ↔ ((space_of self.old).mail to from ≢ []) }
        ensures steady { IsSteady self.old self.new }
        ensures fewer { self.new.waiting + (if result then 1 else 0) ≡ self.old.waiting }
        ensures received { IsSame (threads_of self.old) (space_of self.new)
            (said.received to from ((space_of self.old).mail to from) (space_of self.old)) }
    {
        let outbox = &mut self.boxes[from as usize];
        let Some(message) = outbox.take(to as usize) else {
            return false;
        };
        self.waiting -= 1;
        raise_to(&mut self.clocks, to as usize, message.stamp.clock);
        self.held.come(to as usize, message);
        true
    }
}
