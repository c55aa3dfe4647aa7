//! A recorder: a thread's machine with its record and its end, whatever memory it acts on.

ghost use Rattle.std.specs.Prelude.{◌≡◌, ◌<◌, ◌+◌, ◌++◌, [], ◌∷◌, true, None, Some, length, is_some, IfOk, IfSome};
ghost use Rattle.std.specs.Prelude.{IsNone, OnOk, option_copied};
ghost use Rattle.upc_values.specs.declared.action.Action.{Action};
ghost use Rattle.upc_values.specs.declared.record.Item.TheVariants.{Did};
ghost use Rattle.upc_values.specs.Openings.{Opening};
ghost use Rattle.upc_values.specs.Outcomes.{Suits};
ghost use Rattle.upc_values.specs.Records as records;
ghost use Rattle.upc_values.specs.Records.{replies_of};
ghost use Rattle.upc_values.specs.Strands.{may_wait};
ghost use Rattle.upc_values.specs.Ends as ends;
ghost use Rattle.stack_code.specs.layer.Codes.{Codes};
ghost use Rattle.stack_machine.specs.declared.wish.Wish.TheVariants.{Act};
ghost use Rattle.upc_task.specs.declared.worker.Pause.TheVariants.{Finished, Stalled};
ghost use Rattle.upc_task.specs.layer.Sources.{Outcomes, HasOutcomes};
ghost use Rattle.upc_task.specs.layer.Recorded as recorded;
ghost use Rattle.upc_task.specs.layer.Recorded.{AreLimits, IsRecorded, StaysRecorded, IsSame, Paused, MayFinish};
ghost use Rattle.upc_task.specs.layer.Recorded.{CanEnd, Adds, Leaves, Stalls, strand_of, wanted_of};

use crate::limits::Limits;
use crate::worker::Pause;
use stack_code::Code;
use stack_machine::{Machine, Wish};
use std::alloc::{AllocError as OutOfMemory, Global};
use upc_values::{Action, Chunks, End, Item, Items, Reply, Strand, copy_action};

/// A thread's machine, its record, what stands between it and the memory that it acts on, and its end.
///
/// A recorder is ready where it has a wish that has not been answered; a new one is not ready. After a call has
/// answered want of memory a recorder is only dropped.
#[derive(Drop)]
pub struct Recorder<B> {
    pub(crate) machine: Machine,
    pub(crate) thread: u32,
    pub(crate) limits: Limits,
    pub(crate) items: Chunks<Item>,
    pub(crate) buffer: B,
    pub(crate) next: u32,
    pub(crate) answer: Option<Reply>,
    pub(crate) wish: Option<Wish>,
    pub(crate) end: Option<End>,
}

fn is_stall(item: &Item) -> bool
    ensures { result ≡ records.is_stall (Some item.now) }
{
    matches!(item, Item::Stall)
}

// Whether the last item is a Stall.
fn ends_with_stall(items: &Chunks<Item>) -> bool
    ensures { result ≡ records.is_stall (records.last_item items.now.items) }
{
    match items.last() {
        Some(item) => is_stall(item),
        None => false,
    }
}

fn is_pause(item: &Item) -> bool
    ensures { result ≡ ends.is_pause (Some item.now) }
{
    matches!(item, Item::Stall | Item::Did(Action::Beat, _))
}

// Whether the last item is a Beat or a Stall.
fn ends_with_pause(items: &Chunks<Item>) -> bool
    ensures { result ≡ ends.is_pause (records.last_item items.now.items) }
{
    match items.last() {
        Some(item) => is_pause(item),
        None => false,
    }
}

fn is_beat(action: &Action) -> bool
    ensures { result ≡ records.is_beat action.now }
{
    matches!(action, Action::Beat)
}

// The end that a wish is, or that comes where it is an action and the record is full.
fn end_of(wish: &Wish, full: bool) -> Option<End>
    ensures { result ≡ recorded.own_end wish.now full }
{
    match wish {
        Wish::Act(_) => { if full { Some(End::ActionsFull) } else { None } }
        Wish::Ended(value) => Some(End::Ended(*value)),
        Wish::Exit(value) => Some(End::Exit(*value)),
        Wish::Fault(code, place) => Some(End::Fault(*code, *place)),
        Wish::Budget => Some(End::Budget),
    }
}

impl<B: Drop> Recorder<B> {
    /// A recorder that has done nothing, with a buffer.
    pub fn begun(
        alloc: Global,
        code: &Code,
        thread: u32,
        limits: Limits,
        buffer: B,
    ) -> Result<Self, OutOfMemory>
        requires limits { AreLimits limits }
        requires code { code.now.threads ≡ limits.threads }
        requires thread { thread < limits.threads }
        ensures recorded { IfOk result (λ k. (o : Opening) (f : Outcomes)
            → HasOutcomes o code.now limits f → IsRecorded o code.now f k) }
        ensures new { IfOk result (λ k. (k.thread ≡ thread) × (k.limits ≡ limits) × (k.«end» ≡ None)) }
        ensures fresh { IfOk result (λ k. (k.items.items ≡ []) × (k.wish ≡ None)) }
        ensures begins { IfOk result (λ k. (k.buffer ≡ buffer) × (k.next ≡ 0)) }
    {
        let machine = Machine::make(alloc, code, thread, limits.budget)?;
        Ok(Recorder {
            machine,
            thread,
            limits,
            items: Chunks::new(alloc),
            buffer,
            next: 0,
            answer: None,
            wish: None,
            end: None,
        })
    }

    /// Does the private work up to the next wish, after which the recorder is ready. A ready one stays as it is.
    pub fn work(&mut self, code: &Code) -> Result<(), OutOfMemory>
        requires { self.old.«end» ≡ None }
        ensures recorded { IfOk result (λ _. StaysRecorded code.now self.old self.new) }
        ensures ready { IfOk result (λ _. is_some self.new.wish ≡ true) }
        ensures same { IsSame self.old self.new × (self.new.«end» ≡ None) }
        ensures items { self.new.items ≡ self.old.items }
        ensures is { self.new ≡ record self.old {
          machine = self.new.machine;
          answer = self.new.answer;
          wish = self.new.wish;
        } }
        ensures unchanged { is_some self.old.wish ≡ true → self.new ≡ self.old }
    {
        if self.wish.is_none() {
            let reply = self.answer.take();
            let wish = self.machine.resume(code, reply)?;
            self.wish = Some(wish);
        }
        Ok(())
    }

    /// Takes room for one more item.
    pub fn reserve(&mut self) -> Result<(), OutOfMemory>
        ensures is { self.new ≡ record self.old { items = self.new.items } }
        ensures items { self.new.items.items ≡ self.old.items.items }
        ensures room { OnOk result (0 < self.new.items.room) }
    {
        self.items.reserve()?;
        Ok(())
    }

    /// A copy of the action that is wished, None where the wish is none.
    pub fn copy_wanted(&self) -> Result<Option<Action>, OutOfMemory>
        ensures { IfOk result (λ c. c ≡ wanted_of self.now.wish) }
    {
        let Some(action) = self.wanted() else {
            return Ok(None);
        };
        let copy = copy_action(self.items.allocator(), action)?;
        Ok(Some(copy))
    }

    /// The end that the thread has come to by itself: that of its source, or that of a full record where it wishes to
    /// act.
    pub fn own_end(&self) -> Option<End>
        requires { is_some self.now.wish ≡ true }
        ensures some { IfSome result (λ e. MayFinish self.now e) }
        ensures none { IsNone result → (length self.now.items.items < self.now.limits.actions)
            × ((a : Action) × (self.now.wish ≡ Some (Act a))) }
    {
        let full = self.items.len() as u64 >= self.limits.actions;
        let Some(wish) = &self.wish else {
            unreachable!()
        };
        end_of(wish, full)
    }

    /// The wished action has had this reply: both are one item more, for which there is room.
    pub fn did(&mut self, reply: Reply) -> Pause
        requires recorded { (o : Opening) × (p : Codes) × (f : Outcomes) × IsRecorded o p f self.old }
        requires open { self.old.«end» ≡ None }
        requires wants { (a : Action) × (self.old.wish ≡ Some (Act a)) }
        requires few { length self.old.items.items < self.old.limits.actions }
        requires room { 0 < self.old.items.room }
        ensures recorded { (o : Opening) (p : Codes) (f : Outcomes) → IsRecorded o p f self.old
            → Suits (f self.old.thread) (replies_of self.old.items.items) reply → IsRecorded o p f self.new }
        ensures is { self.new ≡ record self.old {
          items = self.new.items;
          next = self.old.next + 1;
          answer = Some reply;
          wish = None;
        } }
        ensures items { (a : Action) → self.old.wish ≡ Some (Act a)
            → self.new.items.items ≡ self.old.items.items ++ Did a reply ∷ [] }
        ensures pause { Paused result self.new }
        ensures adds { Adds result self.old.wish self.old.items.items self.new.items.items }
        ensures leaves { Leaves result self.old.wish self.new.wish }
    {
        let Some(Wish::Act(action)) = self.wish.take() else {
            unreachable!()
        };
        let pause = if is_beat(&action) {
            Pause::Beat
        } else {
            Pause::Going
        };
        self.items.push_reserved(Item::Did(action, reply));
        self.next += 1;
        self.answer = Some(reply);
        pause
    }

    /// The wished action is not legal now: the last item is a Stall then, for which there is room.
    pub fn stall(&mut self) -> Pause
        requires recorded { (o : Opening) × (p : Codes) × (f : Outcomes) × IsRecorded o p f self.old }
        requires open { self.old.«end» ≡ None }
        requires wants { (a : Action) × (self.old.wish ≡ Some (Act a)) }
        requires few { length self.old.items.items < self.old.limits.actions }
        requires room { 0 < self.old.items.room }
        ensures recorded { (o : Opening) (p : Codes) (f : Outcomes) (a : Action) → IsRecorded o p f self.old
            → self.old.wish ≡ Some (Act a) → may_wait a ≡ true → IsRecorded o p f self.new }
        ensures is { self.new ≡ record self.old { items = self.new.items } }
        ensures items { Stalls self.old.items.items self.new.items.items }
        ensures last { records.is_stall (records.last_item self.new.items.items) ≡ true }
        ensures pause { (result ≡ Stalled) × Paused result self.new }
        ensures adds { Adds result self.old.wish self.old.items.items self.new.items.items }
        ensures leaves { Leaves result self.old.wish self.new.wish }
    {
        if !ends_with_stall(&self.items) {
            self.items.push_reserved(Item::Stall);
        }
        Pause::Stalled
    }

    /// The thread has this end, to which it has come by itself.
    pub fn finish(&mut self, end: End) -> Pause
        requires may { MayFinish self.old «end» }
        requires ready { (self.old.«end» ≡ None) × (is_some self.old.wish ≡ true) }
        ensures recorded { (o : Opening) (p : Codes) (f : Outcomes) → IsRecorded o p f self.old
            → IsRecorded o p f self.new }
        ensures is { self.new ≡ record self.old { «end» = Some «end» } }
        ensures pause { (result ≡ Finished) × Paused result self.new }
    {
        self.end = Some(end);
        Pause::Finished
    }

    /// Whether there is a wish that has not been answered.
    pub fn is_ready(&self) -> bool
        ensures { result ≡ is_some self.now.wish }
    {
        self.wish.is_some()
    }

    /// The action that waits for its reply, None exactly where there is none.
    pub fn wanted(&self) -> Option<&Action>
        ensures none { IsNone result → (a : Action) → self.now.wish ≡ Some (Act a) → ⊥ }
        ensures some { IfSome result (λ a. self.now.wish ≡ Some (Act a.now)) }
    {
        match &self.wish {
            Some(Wish::Act(action)) => Some(action),
            _ => None,
        }
    }

    /// The end, None exactly where there is none.
    pub fn end(&self) -> Option<&End>
        ensures { option_copied result ≡ self.now.«end» }
    {
        self.end.as_ref()
    }

    /// Whether there is an end.
    pub fn has_ended(&self) -> bool
        ensures { result ≡ is_some self.now.«end» }
    {
        self.end.is_some()
    }

    /// The number of the thread.
    pub fn thread(&self) -> u32
        ensures { result ≡ self.now.thread }
    {
        self.thread
    }

    /// The number of the thread's next action.
    pub fn next(&self) -> u32
        ensures { result ≡ self.now.next }
    {
        self.next
    }

    /// Whether the last item is a Stall.
    pub fn is_stalled(&self) -> bool
        ensures { result ≡ records.is_stall (records.last_item self.now.items.items) }
    {
        ends_with_stall(&self.items)
    }

    /// Whether the last item is a Beat or a Stall.
    pub fn is_pausing(&self) -> bool
        ensures { result ≡ ends.is_pause (records.last_item self.now.items.items) }
    {
        ends_with_pause(&self.items)
    }

    /// Gives a thread that stands at a Beat or a Stall its end: Halted, or at a Stall Deadlocked with what it wants.
    pub fn end_as(&mut self, end: End)
        requires open { self.old.«end» ≡ None }
        requires can { CanEnd self.old «end» }
        ensures recorded { (o : Opening) (p : Codes) (f : Outcomes) → IsRecorded o p f self.old
            → IsRecorded o p f self.new }
        ensures is { self.new ≡ record self.old { «end» = Some «end» } }
    {
        self.end = Some(end);
    }

    /// The strand of a thread that has its end. It takes no memory.
    pub fn into_strand(self) -> Strand
        requires { is_some self.«end» ≡ true }
        ensures { (o : Opening) (p : Codes) (f : Outcomes) → IsRecorded o p f self → result ≡ strand_of f self }
    {
        let ticks = self.machine.ticks();
        let Recorder { items, end, .. } = self;
        let Some(end) = end else { unreachable!() };
        Strand {
            items: Items::from_chunks(items),
            ticks,
            end,
        }
    }
}
