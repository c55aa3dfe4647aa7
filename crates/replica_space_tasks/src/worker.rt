//! A worker on a memory in which each thread has its own copy: it has no write buffer.

ghost use Rattle.std.specs.Prelude.{◌≡◌, ◌<◌, List, [], true, Some, None, is_some, length, IfOk, IfSome, IsNone, OnErr};
ghost use Rattle.std.specs.Prelude.{option_copied};
ghost use Rattle.upc_values.specs.declared.action.Action.{Action};
ghost use Rattle.upc_values.specs.Openings.{Opening};
ghost use Rattle.upc_values.specs.Records as records;
ghost use Rattle.upc_values.specs.Ends as ends;
ghost use Rattle.stack_code.specs.layer.Codes.{Codes};
ghost use Rattle.stack_machine.specs.declared.wish.Wish.TheVariants.{Act};
ghost use Rattle.replica_space.specs.declared.event.Event.{Event};
ghost use Rattle.replica_space.specs.Events.{history_in};
ghost use Rattle.upc_task.specs.declared.worker.Pause.TheVariants.{Finished};
ghost use Rattle.upc_task.specs.layer.Sources.{Outcomes, HasOutcomes};
ghost use Rattle.upc_task.specs.layer.Recorded.{AreLimits, IsSame, Paused, CanEnd, Adds, Leaves, Waits};
ghost use Rattle.upc_task.specs.layer.Recorded.{strand_of, wanted_of};
ghost use Rattle.replica_space_tasks.specs.layer.Kept.{IsKept, Keeps, StaysKept, Stays, Grew, events_of};
ghost use Rattle.replica_space_tasks.specs.code.Dues.{HasDelivered};

use memory_history::Step;
use replica_space_acts::Replicas;
use replica_space_mail::is_synchronising;
use stack_code::Code;
use std::alloc::Global;
use upc_task::{Limits, Pause, Recorder};
use upc_text::OutOfMemory;
use upc_values::{Action, End, Strand};

// Before an action that is not synchronising a thread delivers to itself the oldest message that waits from the thread
// whose turn it is by the action's number.
fn receive(run: &mut Replicas, thread: u32, index: u32, action: &Action) -> Result<(), OutOfMemory>
    requires below { thread < run.old.0.threads }
    ensures due { IfOk result (λ _.
        HasDelivered run.old.0.threads thread index action.now run.old.1 run.new.1) }
    ensures grew { Grew thread run.old.1 run.new.1 }
    ensures history { history_in run.new.1 ≡ history_in run.old.1 }
    ensures opening { run.new.0 ≡ run.old.0 }
{
    if !is_synchronising(action) {
        let from = index % run.threads();
        run.deliver(thread, thread, from)?;
    }
    Ok(())
}

/// A thread's machine, its record and its end, which acts on a run in which each thread has its own copy of the shared
/// memory. Nothing stands between it and the run.
///
/// A worker is ready where it has a wish that has not been answered; a new one is not ready. After a call has
/// answered want of memory a worker is only dropped, and what it has delivered stays in the run.
#[derive(Drop)]
pub struct ReplicaWorker {
    recorder: Recorder<()>,
}

impl ReplicaWorker {
    /// A worker that has done nothing.
    pub fn make(
        alloc: Global,
        code: &Code,
        thread: u32,
        limits: Limits,
    ) -> Result<ReplicaWorker, OutOfMemory>
        requires limits { AreLimits limits }
        requires code { code.now.threads ≡ limits.threads }
        requires thread { thread < limits.threads }
        ensures kept { IfOk result (λ k. (o : Opening) (f : Outcomes) (events : List Event)
            → HasOutcomes o code.now limits f → events_of thread events ≡ [] → IsKept o code.now f events k) }
        ensures new { IfOk result (λ k. (k.recorder.thread ≡ thread) × (k.recorder.limits ≡ limits)
            × (k.recorder.«end» ≡ None)) }
        ensures fresh { IfOk result (λ k. (k.recorder.items.items ≡ []) × (k.recorder.wish ≡ None)) }
    {
        let recorder = Recorder::begun(alloc, code, thread, limits, ())?;
        Ok(ReplicaWorker { recorder })
    }

    /// Does the private work up to the next wish, after which the worker is ready. A ready worker stays as it is.
    pub fn work(&mut self, code: &Code) -> Result<(), OutOfMemory>
        requires { self.old.recorder.«end» ≡ None }
        ensures kept { IfOk result (λ _. StaysKept code.now self.old self.new) }
        ensures ready { IfOk result (λ _. is_some self.new.recorder.wish ≡ true) }
        ensures same { IsSame self.old.recorder self.new.recorder × (self.new.recorder.«end» ≡ None) }
        ensures items { self.new.recorder.items ≡ self.old.recorder.items }
        ensures unchanged { is_some self.old.recorder.wish ≡ true → self.new ≡ self.old }
    {
        self.recorder.work(code)?;
        Ok(())
    }

    // Does the wanted action, or stalls before it. Before an action that is not synchronising it delivers to itself the
    // oldest message that waits from the thread whose turn it is.
    fn act(&mut self, run: &mut Replicas) -> Result<Pause, OutOfMemory>
        requires kept { (p : Codes) × (f : Outcomes) × IsKept run.old.0 p f run.old.1 self.old }
        requires open { self.old.recorder.«end» ≡ None }
        requires wants { (a : Action) × (self.old.recorder.wish ≡ Some (Act a)) }
        requires room { length self.old.recorder.items.items < self.old.recorder.limits.actions }
        ensures kept { IfOk result (λ _. Keeps run.old self.old run.new self.new) }
        ensures same { IsSame self.old.recorder self.new.recorder }
        ensures grew { Grew self.old.recorder.thread run.old.1 run.new.1 }
        ensures lacks { OnErr result ((self.new.recorder.items.items ≡ self.old.recorder.items.items)
            × (history_in run.new.1 ≡ history_in run.old.1)) }
        ensures pause { IfOk result (λ p. Paused p self.new.recorder) }
        ensures adds { IfOk result (λ p.
            Adds p self.old.recorder.wish self.old.recorder.items.items self.new.recorder.items.items) }
        ensures leaves { IfOk result (λ p. Leaves p self.old.recorder.wish self.new.recorder.wish) }
        ensures waits { IfOk result (λ p. Waits p run.new.0 (history_in run.new.1) self.new.recorder) }
        ensures stays { IfOk result (λ p. Stays p run.old.1 run.new.1) }
        ensures opening { run.new.0 ≡ run.old.0 }
    {
        self.recorder.reserve()?;
        run.keeps();
        let thread = self.recorder.thread();
        let index = self.recorder.next();
        let Some(action) = self.recorder.wanted() else {
            unreachable!()
        };
        receive(run, thread, index, action)?;
        match run.act(thread, index, action)? {
            Step::Done(reply) => {
                run.keeps();
                Ok(self.recorder.did(reply))
            }
            Step::Disabled => Ok(self.recorder.stall()),
        }
    }

    /// Acts on the wish: at most one new item, and the events that go with it. The machine is not resumed. A full
    /// record ends.
    ///
    /// After want of memory the record is as it was, and so is the history in the events.
    pub fn step(&mut self, run: &mut Replicas) -> Result<Pause, OutOfMemory>
        requires kept { (p : Codes) × (f : Outcomes) × IsKept run.old.0 p f run.old.1 self.old }
        requires ready { (self.old.recorder.«end» ≡ None) × (is_some self.old.recorder.wish ≡ true) }
        ensures kept { IfOk result (λ _. Keeps run.old self.old run.new self.new) }
        ensures same { IsSame self.old.recorder self.new.recorder }
        ensures grew { Grew self.old.recorder.thread run.old.1 run.new.1 }
        ensures lacks { OnErr result ((self.new.recorder.items.items ≡ self.old.recorder.items.items)
            × (history_in run.new.1 ≡ history_in run.old.1)) }
        ensures pause { IfOk result (λ p. Paused p self.new.recorder) }
        ensures adds { IfOk result (λ p.
            Adds p self.old.recorder.wish self.old.recorder.items.items self.new.recorder.items.items) }
        ensures leaves { IfOk result (λ p. Leaves p self.old.recorder.wish self.new.recorder.wish) }
        ensures waits { IfOk result (λ p. Waits p run.new.0 (history_in run.new.1) self.new.recorder) }
        ensures stays { IfOk result (λ p. Stays p run.old.1 run.new.1) }
        ensures full { IfOk result (λ p.
            length self.old.recorder.items.items ≡ self.old.recorder.limits.actions → p ≡ Finished) }
        ensures opening { run.new.0 ≡ run.old.0 }
    {
        match self.recorder.own_end() {
            Some(end) => Ok(self.recorder.finish(end)),
            None => self.act(run),
        }
    }

    /// Whether the worker has a wish that has not been answered.
    pub fn is_ready(&self) -> bool
        ensures { result ≡ is_some self.now.recorder.wish }
    {
        self.recorder.is_ready()
    }

    /// The action that waits for its reply, None exactly where there is none.
    pub fn wanted(&self) -> Option<&Action>
        ensures none { IsNone result → (a : Action) → self.now.recorder.wish ≡ Some (Act a) → ⊥ }
        ensures some { IfSome result (λ a. self.now.recorder.wish ≡ Some (Act a.now)) }
    {
        self.recorder.wanted()
    }

    /// A copy of the action that is wished, None where the wish is none.
    pub fn copy_wanted(&self) -> Result<Option<Action>, OutOfMemory>
        ensures { IfOk result (λ c. c ≡ wanted_of self.now.recorder.wish) }
    {
        self.recorder.copy_wanted()
    }

    /// The worker's end, None exactly where it has none.
    pub fn end(&self) -> Option<&End>
        ensures { option_copied result ≡ self.now.recorder.«end» }
    {
        self.recorder.end()
    }

    /// Whether the worker has its end.
    pub fn has_ended(&self) -> bool
        ensures { result ≡ is_some self.now.recorder.«end» }
    {
        self.recorder.has_ended()
    }

    /// The number of the worker's thread.
    pub fn thread(&self) -> u32
        ensures { result ≡ self.now.recorder.thread }
    {
        self.recorder.thread()
    }

    /// Whether the worker's last item is a Stall.
    pub fn is_stalled(&self) -> bool
        ensures { result ≡ records.is_stall (records.last_item self.now.recorder.items.items) }
    {
        self.recorder.is_stalled()
    }

    /// Whether the worker's last item is a Beat or a Stall.
    pub fn is_pausing(&self) -> bool
        ensures { result ≡ ends.is_pause (records.last_item self.now.recorder.items.items) }
    {
        self.recorder.is_pausing()
    }

    /// Gives a worker that stands at a Beat or a Stall its end: Halted, or at a Stall Deadlocked with what it wants.
    pub fn end_as(&mut self, end: End)
        requires open { self.old.recorder.«end» ≡ None }
        requires can { CanEnd self.old.recorder «end» }
        ensures kept { (p : Codes) → StaysKept p self.old self.new }
        ensures is { self.new.recorder ≡ record self.old.recorder { «end» = Some «end» } }
    {
        self.recorder.end_as(end);
    }

    /// The strand of a worker that has its end. It takes no memory.
    pub fn into_strand(self) -> Strand
        requires { is_some self.recorder.«end» ≡ true }
        ensures { (o : Opening) (p : Codes) (f : Outcomes) (events : List Event)
            → IsKept o p f events self → result ≡ strand_of f self.recorder }
    {
        self.recorder.into_strand()
    }
}
