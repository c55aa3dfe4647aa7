//! The walk over the events of a run.

ghost use Rattle.std.specs.Prelude.{◌≡◌, ◌<◌, ℕ, [], IfOk, OnOk};
ghost use Rattle.upc_values.specs.Openings.{Opening};
ghost use Rattle.replica_space.specs.Events.{did, delivered};
ghost use Rattle.replica_space.specs.Runs.{IsReplicaRun};
ghost use Rattle.replica_space.specs.ReplicaOrders.{Listed, listed_after};
ghost use Rattle.replica_space_copies.specs.layer.Copies.{threads_of};
ghost use Rattle.replica_space_walk.specs.code.Walking.{IsAt, IsLow, IsWithin, IsEven, after};

use crate::mail::{meet_for, place_oldest, write};
use crate::rows::{no_rows, push};
use replica_space::{Deed, Event, Events};
use replica_space_copies::Copies;
use replica_space_mail::is_synchronising;
use replica_space_rows::Row;
use std::alloc::{AllocError as OutOfMemory, Global};
use upc_values::{Action, Reply};

/// What the threads have, and the list of each.
#[derive(Drop)]
pub(crate) struct Walk {
    pub(crate) copies: Copies,
    pub(crate) rows: Vec<Row>,
}

impl Walk {
    // What so many threads begin with.
    fn make(alloc: Global, threads: u32) -> Result<Walk, OutOfMemory>
        ensures { IfOk result (λ w. IsAt threads (listed_after threads []) w) }
    {
        let copies = Copies::make(alloc, threads)?;
        let rows = no_rows(alloc, threads)?;
        Ok(Walk { copies, rows })
    }

    // A thread's action, with its reply.
    fn act(
        &mut self,
        thread: u32,
        index: u32,
        action: &Action,
        reply: &Reply,
    ) -> Result<(), OutOfMemory>
        requires even { IsEven self.old }
        requires within { thread < threads_of self.old.copies }
        ensures even { IsEven self.new }
        ensures shows { OnOk result ((n : ℕ) (x : Listed) → IsAt n x self.old → IsLow n x
            → IsAt n (after n (did thread index action.now reply.now) x) self.new) }
    {
        let all = is_synchronising(action);
        meet_for(&mut self.copies, all);
        let stamp = self.copies.next_stamp(thread)?;
        push(self.rows.as_mut_slice(), all, index, action, reply, stamp)?;
        write(&mut self.copies, thread, index, action)?;
        Ok(())
    }

    // The delivery of the oldest message that waits for a thread from another one.
    fn deliver(&mut self, to: u32, from: u32) -> Result<(), OutOfMemory>
        requires even { IsEven self.old }
        requires to { to < threads_of self.old.copies }
        requires from { from < threads_of self.old.copies }
        ensures even { IsEven self.new }
        ensures shows { OnOk result ((n by : ℕ) (x : Listed) → IsAt n x self.old
            → IsAt n (after n (delivered by to from) x) self.new) }
    {
        place_oldest(self.rows.as_mut_slice(), &self.copies, to, from)?;
        self.copies.deliver(to, from);
        Ok(())
    }

    // One event.
    fn step(&mut self, event: &Event) -> Result<(), OutOfMemory>
        requires even { IsEven self.old }
        requires within { IsWithin (threads_of self.old.copies) event.now }
        ensures even { IsEven self.new }
        ensures shows { OnOk result ((n : ℕ) (x : Listed) → IsAt n x self.old → IsLow n x
            → IsAt n (after n event.now x) self.new) }
    {
        match &event.deed {
            Deed::Did {
                index,
                action,
                reply,
            } => self.act(event.by, *index, action, reply)?,
            Deed::Delivered { to, from } => self.deliver(*to, *from)?,
        }
        Ok(())
    }
}

/// What so many threads have after these events, and the list of each.
pub(crate) fn walk_over(alloc: Global, threads: u32, events: &Events) -> Result<Walk, OutOfMemory>
    requires run { (o : Opening) × (o.threads ≡ threads) × IsReplicaRun o events.now }
    ensures { IfOk result (λ w. IsAt threads (listed_after threads events.now) w) }
{
    let mut walk = Walk::make(alloc, threads)?;
    for event in events.iter() {
        walk.step(event)?;
    }
    Ok(walk)
}
