//! A worker: a thread's machine, which acts on a history through its write buffer.

ghost use Rattle.std.specs.Prelude.{◌≡◌, ◌<◌, ◌++◌, List, [], true, false, Some, None, is_some, IfOk, OnErr, length};
ghost use Rattle.std.specs.Prelude.{map};
ghost use mathlib.Core.List.{IsPrefix};
ghost use Rattle.upc_values.specs.declared.journal.Entry.{Entry};
ghost use Rattle.upc_values.specs.Drain.{entries_of};
ghost use Rattle.upc_values.specs.Openings.{Opening, IsOpening};
ghost use Rattle.upc_values.specs.History.{IsLegal};
ghost use Rattle.upc_values.specs.Formed.{AreWellFormed};
ghost use Rattle.write_buffer.specs.layer.Buffer.{committed};
ghost use Rattle.stack_code.specs.layer.Codes.{Codes};
ghost use Rattle.stack_machine.specs.declared.wish.Wish.TheVariants.{Act};
ghost use Rattle.upc_task.specs.declared.worker.Pause.TheVariants.{Going, Finished};
ghost use Rattle.upc_task.specs.layer.Sources.{Outcomes, HasOutcomes};
ghost use Rattle.upc_task.specs.layer.Recorded.{AreLimits, IsSame, MayFinish, Paused, Adds, Leaves, Waits, wanted_of};
ghost use Rattle.upc_task.specs.layer.Kept.{IsKept, Keeps, Grew};

use crate::emit::{emit, emit_alone, empty};
use crate::limits::Limits;
use crate::recorder::Recorder;
use memory_history::{Step, World};
use stack_code::Code;
use stack_machine::Wish;
use std::alloc::{AllocError as OutOfMemory, Global};
use upc_values::{Action, End};
use write_buffer::WriteBuffer;

/// How a worker stands after a step.
#[derive(Clone, Copy, PartialEq, Eq, Debug)]
pub enum Pause {
    /// It did an action that is no Beat.
    Going,
    /// It did a Beat.
    Beat,
    /// It stands at a Stall: what it wishes to do is not legal now.
    Stalled,
    /// It has its end.
    Finished,
}

/// A recorder whose actions go through a write buffer.
pub(crate) type Worker = Recorder<WriteBuffer>;

impl Recorder<WriteBuffer> {
    /// A worker that has done nothing.
    pub(crate) fn make(
        alloc: Global,
        code: &Code,
        thread: u32,
        limits: Limits,
    ) -> Result<Worker, OutOfMemory>
        requires limits { AreLimits limits }
        requires code { code.now.threads ≡ limits.threads }
        requires thread { thread < limits.threads }
        ensures kept { IfOk result (λ k. (o : Opening) (f : Outcomes) (seen : List Entry)
            → HasOutcomes o code.now limits f → entries_of thread seen ≡ []
            → IsKept o code.now f seen k) }
        ensures new { IfOk result (λ k. (k.thread ≡ thread) × (k.limits ≡ limits) × (k.«end» ≡ None)) }
        ensures fresh { IfOk result (λ k. (k.items.items ≡ []) × (k.wish ≡ None)) }
    {
        let buffer = WriteBuffer::make(alloc)?;
        let worker = Recorder::begun(alloc, code, thread, limits, buffer)?;
        Ok(worker)
    }

    // The buffer is emptied, and the worker has its end.
    fn close(&mut self, world: &mut World, end: End) -> Result<Pause, OutOfMemory>
        requires kept { (p : Codes) × (f : Outcomes) × IsKept world.old.0 p f world.old.1 self.old }
        requires ready { (self.old.«end» ≡ None) × (is_some self.old.wish ≡ true) }
        requires may { MayFinish self.old «end» }
        ensures kept { IfOk result (λ _. Keeps world.old self.old world.new self.new) }
        ensures same { IsSame self.old self.new }
        ensures grew { Grew self.old.thread world.old.1 world.new.1 }
        ensures front { OnErr result (IsPrefix world.new.1
            (world.old.1 ++ map (committed self.old.thread) self.old.buffer)) }
        ensures pause { IfOk result (λ p. (p ≡ Finished) × Paused p self.new) }
        ensures items { (self.new.items ≡ self.old.items) × (self.new.wish ≡ self.old.wish) }
        ensures opening { world.new.0 ≡ world.old.0 }
    {
        empty(self.thread, world, &mut self.buffer)?;
        Ok(self.finish(end))
    }

    // Does the wanted action, or stalls before it. The history takes the copy.
    fn act(&mut self, world: &mut World, copy: Action) -> Result<Pause, OutOfMemory>
        requires kept { (p : Codes) × (f : Outcomes) × IsKept world.old.0 p f world.old.1 self.old }
        requires open { self.old.«end» ≡ None }
        requires wants { self.old.wish ≡ Some (Act copy) }
        requires room { length self.old.items.items < self.old.limits.actions }
        ensures kept { IfOk result (λ _. Keeps world.old self.old world.new self.new) }
        ensures same { IsSame self.old self.new }
        ensures grew { Grew self.old.thread world.old.1 world.new.1 }
        ensures lacks { OnErr result (self.new.items.items ≡ self.old.items.items) }
        ensures front { OnErr result (IsPrefix world.new.1
            (world.old.1 ++ map (committed self.old.thread) self.old.buffer)) }
        ensures pause { IfOk result (λ p. Paused p self.new) }
        ensures adds { IfOk result (λ p. Adds p self.old.wish self.old.items.items self.new.items.items) }
        ensures leaves { IfOk result (λ p. Leaves p self.old.wish self.new.wish) }
        ensures waits { IfOk result (λ p. Waits p world.new.0 world.new.1 self.new) }
        ensures opening { world.new.0 ≡ world.old.0 }
    {
        self.items.reserve()?;
        world.keeps();
        match emit(self.thread, self.next, world, &mut self.buffer, copy)? {
            Step::Done(reply) => {
                world.keeps();
                Ok(self.did(reply))
            }
            Step::Disabled => Ok(self.stall()),
        }
    }

    /// Acts on the wish where the buffer alone answers it, and says whether it did: a relaxed store that pushes none
    /// out, or a relaxed read of a pending write. It takes no memory.
    pub(crate) fn step_alone(&mut self) -> bool
        requires kept { (o : Opening) × (p : Codes) × (f : Outcomes) × (seen : List Entry)
            × IsKept o p f seen self.old }
        requires ready { (self.old.«end» ≡ None) × (is_some self.old.wish ≡ true) }
        requires room { 0 < self.old.items.room }
        ensures kept { result ≡ true → (o : Opening) (p : Codes) (f : Outcomes) (seen : List Entry)
            → IsOpening o → IsLegal o seen → AreWellFormed o seen → IsKept o p f seen self.old
            → IsKept o p f seen self.new }
        ensures same { IsSame self.old self.new }
        ensures pause { result ≡ true → Paused Going self.new }
        ensures adds { result ≡ true → Adds Going self.old.wish self.old.items.items self.new.items.items }
        ensures leaves { result ≡ true → Leaves Going self.old.wish self.new.wish }
        ensures room { result ≡ true → length self.old.items.items < self.old.limits.actions }
        ensures none { result ≡ false → self.new ≡ self.old }
    {
        if self.items.len() as u64 >= self.limits.actions {
            return false;
        }
        let Some(Wish::Act(action)) = &self.wish else {
            return false;
        };
        let Some(reply) = emit_alone(self.next, &mut self.buffer, action) else {
            return false;
        };
        self.did(reply);
        true
    }

    /// Acts on the wish: at most one new item, and the commits that go with it. The machine is not resumed. A full
    /// record ends. The history takes the copy of the wanted action.
    ///
    /// After want of memory the record is as it was, and the history has gained the first of the pending writes at
    /// most.
    pub(crate) fn step(
        &mut self,
        world: &mut World,
        copy: Option<Action>,
    ) -> Result<Pause, OutOfMemory>
        requires kept { (p : Codes) × (f : Outcomes) × IsKept world.old.0 p f world.old.1 self.old }
        requires ready { (self.old.«end» ≡ None) × (is_some self.old.wish ≡ true) }
        requires copy { copy ≡ wanted_of self.old.wish }
        ensures kept { IfOk result (λ _. Keeps world.old self.old world.new self.new) }
        ensures same { IsSame self.old self.new }
        ensures grew { Grew self.old.thread world.old.1 world.new.1 }
        ensures lacks { OnErr result (self.new.items.items ≡ self.old.items.items) }
        ensures front { OnErr result (IsPrefix world.new.1
            (world.old.1 ++ map (committed self.old.thread) self.old.buffer)) }
        ensures pause { IfOk result (λ p. Paused p self.new) }
        ensures adds { IfOk result (λ p. Adds p self.old.wish self.old.items.items self.new.items.items) }
        ensures leaves { IfOk result (λ p. Leaves p self.old.wish self.new.wish) }
        ensures waits { IfOk result (λ p. Waits p world.new.0 world.new.1 self.new) }
        ensures full { IfOk result (λ p. length self.old.items.items ≡ self.old.limits.actions → p ≡ Finished) }
        ensures opening { world.new.0 ≡ world.old.0 }
    {
        match self.own_end() {
            Some(end) => self.close(world, end),
            None => {
                let Some(copy) = copy else { unreachable!() };
                self.act(world, copy)
            }
        }
    }
}
