//! The parts of a memory.

ghost use Rattle.std.specs.Prelude.{◌≡◌, true, None, [], replicate, IfOk, IfSome, OnErr};
ghost use Rattle.upc_values.specs.Openings.{IsOpening};
ghost use Rattle.shared_heap.specs.layer.Heap as heap;
ghost use Rattle.sync_objects.specs.layer.Barrier as barrier;
ghost use Rattle.memory_history.specs.code.Acting as said;
ghost use Rattle.memory_history.specs.code.Acting.{Acted, MayAct};

use crate::meets::Meets;
use shared_heap::Heap;
use std::alloc::Global;
use std::marker::Model;
use sync_objects::{Barrier, Locks};
use upc_text::OutOfMemory;
use upc_values::{Action, Loc, ObjectRef, Reply, Scalar, Shape};

/// The parts of a memory: its heap, its locks, what each thread has done at the barrier, and its collective calls.
/// Contracts see each.
#[derive(Drop)]
pub struct Parts {
    pub(crate) heap: Heap,
    pub(crate) locks: Locks,
    pub(crate) barrier: Barrier,
    pub(crate) meets: Meets,
}

impl Model for Parts {
    ghost use Rattle.memory_history.specs.code.After.{PartsState};

    ghost Value = { PartsState };

    ghost view = { λ p. record { heap = p.heap; locks = p.locks; barrier = p.barrier; meets = p.meets } };
}

impl Parts {
    // The parts of a memory with these declared objects, initial values and shapes, for this many threads, of which
    // none has done anything.
    pub(crate) fn make(
        alloc: Global,
        declared: &[ObjectRef],
        initials: &[(Loc, Scalar)],
        shapes: &[Shape],
        threads: u32,
    ) -> Result<Parts, OutOfMemory>
        requires { IsOpening record {
          threads = threads;
          declared = declared.now;
          initials = initials.now;
          shapes = shapes.now;
        } }
        ensures { IfOk result (λ p. p ≡ said.begun record {
          threads = threads;
          declared = declared.now;
          initials = initials.now;
          shapes = shapes.now;
        }) }
    {
        Ok(Parts {
            heap: Heap::make(alloc, declared, initials, shapes, threads)?,
            locks: Locks::make(alloc)?,
            barrier: Barrier::make(alloc, threads)?,
            meets: Meets::make(alloc, threads)?,
        })
    }

    // Acts on the part that the action concerns: its answer, none where the thread has to wait. Where there is no
    // memory, nothing changes.
    pub(crate) fn act(
        &mut self,
        alloc: Global,
        thread: u32,
        action: &Action,
    ) -> Result<Option<Reply>, OutOfMemory>
        requires { MayAct thread action.now self.old }
        ensures answer { IfOk result (λ r. r ≡ said.answer thread action.now self.old) }
        ensures acted { IfOk result (λ r. IfSome r (λ q. Acted thread action.now q self.old self.new)) }
        ensures waits { IfOk result (λ r. r ≡ None → self.new ≡ self.old) }
        ensures kept { OnErr result (self.new ≡ self.old) }
    {
        match action {
            Action::Read { loc, .. } => Ok(Some(Reply::Value(self.heap.load(*loc)))),
            Action::Write { loc, value, .. } => {
                self.heap.save(*loc, *value)?;
                Ok(Some(Reply::Done))
            }
            Action::Notify(mark) => Ok(Some(self.notify(thread, *mark))),
            Action::Wait(mark) => Ok(self.wait(thread, *mark)),
            Action::Lock(lock) => Ok(self.lock(thread, *lock)),
            Action::Attempt(lock) => Ok(Some(self.attempt(thread, *lock))),
            Action::Unlock(lock) => Ok(Some(self.unlock(thread, *lock))),
            Action::LockMake => Ok(Some(self.make_lock()?)),
            Action::LockFree(lock) => Ok(Some(self.free_lock(*lock))),
            Action::Alloc {
                nblocks,
                nbytes,
                home,
                shape,
            } => Ok(Some(self.allocate(*nblocks, *nbytes, *home, *shape)?)),
            Action::Free(pointer) => Ok(Some(self.release(pointer))),
            Action::Meet { call, args } => {
                Ok(Some(self.meet(alloc, thread, *call, args.as_slice())?))
            }
            Action::Fence | Action::Beat | Action::Print(_) | Action::Exit(_) => {
                Ok(Some(Reply::Done))
            }
        }
    }
}
