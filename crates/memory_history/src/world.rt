//! The shared memory as a history.

ghost use Rattle.std.specs.Prelude.{◌≡◌, ◌<◌, ◌^◌, [], length, true, false, ◌↔◌, IsTrue, IfOk, OnErr, IfSome};
ghost use Rattle.std.specs.Prelude.{Some, None, is_some};
ghost use Rattle.upc_values.specs.declared.action.Action.TheVariants.{Read};
ghost use Rattle.upc_values.specs.Openings.{IsOpening};
ghost use Rattle.upc_values.specs.History as history;
ghost use Rattle.upc_values.specs.History.{IsLegal, EachBelow};
ghost use Rattle.upc_values.specs.Formed.{IsWellFormed, AreWellFormed, fits_after};
ghost use Rattle.upc_values.specs.layer.Known.{gives_known};
ghost use Rattle.upc_values.specs.Waits.{WaitsFollow};
ghost use Rattle.upc_values.specs.Locks.{LocksExclude};
ghost use Rattle.upc_values.specs.Strands.{may_wait};
ghost use Rattle.memory_history.specs.layer.World.{answer_of, performed};
ghost use Rattle.memory_history.specs.layer.Turns.{takes_turn};

use crate::parts::Parts;
use crate::step::Step;
use shared_heap::Beginning;
use std::alloc::Global;
use std::marker::Model;
use upc_text::OutOfMemory;
use upc_values::{Action, Chunks, Entries, Entry, Loc, ObjectRef, Scalar, Shape, copy_action};

/// The shared memory: what the run began with, and the list of its entries. Contracts see both. The opening is a valid
/// one, the history is legal from it, and each entry was well formed after the entries before it.
#[derive(Drop)]
pub struct World {
    parts: Parts,
    entries: Chunks<Entry>,
}

impl Model for World {
    ghost use Rattle.std.specs.Prelude.{List};
    ghost use Rattle.upc_values.specs.declared.journal.Entry.{Entry};
    ghost use Rattle.upc_values.specs.Openings.{Opening};
    ghost use Rattle.memory_history.specs.layer.World.{IsWorld};

    ghost Value = { Opening × List Entry };

    ghost view = { λ w. (w.parts.heap.opening, w.entries.items) };

    ghost invariant = { λ w. IsWorld w.parts w.entries.items };
}

impl World {
    /// A memory with these declared objects, initial values and shapes, for this many threads, and no entry.
    pub fn make(
        alloc: Global,
        declared: &[ObjectRef],
        initials: &[(Loc, Scalar)],
        shapes: &[Shape],
        threads: u32,
    ) -> Result<World, OutOfMemory>
        requires { IsOpening record {
          threads = threads;
          declared = declared.now;
          initials = initials.now;
          shapes = shapes.now;
        } }
        ensures opening { IfOk result (λ w. w.0
            ≡ record {
              threads = threads;
              declared = declared.now;
              initials = initials.now;
              shapes = shapes.now;
            }) }
        ensures empty { IfOk result (λ w. w.1 ≡ []) }
    {
        Ok(World {
            parts: Parts::make(alloc, declared, initials, shapes, threads)?,
            entries: Chunks::new(alloc),
        })
    }

    /// Acts on the history: the lawful reply, with one entry appended, or `Disabled` where there is none, as may be
    /// for a Lock or a Wait only. A thread notifies only where it has waited since it last did. It reads no older
    /// entry. After want of memory, which also comes where there would be 2^62 entries, the history is as it was.
    pub fn perform(&mut self, thread: u32, index: u32, action: &Action) -> Result<Step, OutOfMemory>
        requires below { thread < self.old.0.threads }
        requires formed { IsWellFormed self.old.0 self.old.1 action.now }
        requires turns { takes_turn self.old.1 thread action.now ≡ true }
        ensures reply { IfOk result (λ s. answer_of s ≡ history.reply self.old.0 self.old.1 thread action.now) }
        ensures fits { IfOk result (λ s. IfSome (answer_of s) (λ r.
            fits_after self.old.0 self.old.1 action.now r ≡ true)) }
        ensures entries { IfOk result (λ s. self.new.1 ≡ performed self.old.1 thread index action.now (answer_of s)) }
        ensures known { IfOk result (λ s. IfSome (answer_of s) (λ r. gives_known self.new.0 self.new.1 r ≡ true)) }
        ensures disabled { IfOk result (λ s. answer_of s ≡ None → may_wait action.now ≡ true) }
        ensures opening { self.new.0 ≡ self.old.0 }
        ensures err { OnErr result (self.new.1 ≡ self.old.1) }
    {
        let copy = self.copied(action)?;
        self.perform_owned(thread, index, copy)
    }

    // An equal action, in the memory of the entries.
    fn copied(&self, action: &Action) -> Result<Action, OutOfMemory>
        ensures { IfOk result (λ a. a ≡ action.now) }
    {
        copy_action(self.entries.allocator(), action)
    }

    /// `perform` of an action that is handed over: the entry takes it, and no copy is made.
    pub fn perform_owned(
        &mut self,
        thread: u32,
        index: u32,
        action: Action,
    ) -> Result<Step, OutOfMemory>
        requires below { thread < self.old.0.threads }
        requires formed { IsWellFormed self.old.0 self.old.1 action }
        requires turns { takes_turn self.old.1 thread action ≡ true }
        ensures reply { IfOk result (λ s. answer_of s ≡ history.reply self.old.0 self.old.1 thread action) }
        ensures fits { IfOk result (λ s. IfSome (answer_of s) (λ r.
            fits_after self.old.0 self.old.1 action r ≡ true)) }
        ensures entries { IfOk result (λ s. self.new.1 ≡ performed self.old.1 thread index action (answer_of s)) }
        ensures known { IfOk result (λ s. IfSome (answer_of s) (λ r. gives_known self.new.0 self.new.1 r ≡ true)) }
        ensures disabled { IfOk result (λ s. answer_of s ≡ None → may_wait action ≡ true) }
        ensures opening { self.new.0 ≡ self.old.0 }
        ensures err { OnErr result (self.new.1 ≡ self.old.1) }
    {
        if self.entries.len() as u64 >= (1 << 62) - 1 {
            return Err(OutOfMemory);
        }
        let alloc = self.entries.allocator();
        self.entries.reserve()?;
        let Some(reply) = self.parts.act(alloc, thread, &action)? else {
            return Ok(Step::Disabled);
        };
        let entry = Entry {
            thread,
            index,
            action,
            reply,
        };
        self.entries.push_reserved(entry);
        Ok(Step::Done(reply))
    }

    /// Whether an action may be asked for now: its location is a cell, its value fits that cell, what it names has been
    /// made, and its numbers are in their ranges. It takes no memory.
    pub fn is_well_formed(&self, action: &Action) -> bool
        ensures { IsTrue result ↔ IsWellFormed self.now.0 self.now.1 action.now }
    {
        self.parts.may_ask(action)
    }

    /// Whether the action keeps the thread's notifies and waits in turn: it is no notify, or the thread has waited
    /// since it last notified. It takes no memory.
    pub fn takes_turn(&self, thread: u32, action: &Action) -> bool
        requires { thread < self.now.0.threads }
        ensures { result ≡ takes_turn self.now.1 thread action.now }
    {
        match action {
            Action::Notify(_) => self.parts.may_notify(thread),
            _ => true,
        }
    }

    /// Whether an action has a lawful reply now. It takes no memory.
    pub fn is_legal(&self, thread: u32, action: &Action) -> bool
        requires below { thread < self.now.0.threads }
        requires formed { IsWellFormed self.now.0 self.now.1 action.now }
        ensures { result ≡ is_some (history.reply self.now.0 self.now.1 thread action.now) }
    {
        match action {
            Action::Wait(_) => self.parts.may_pass(thread),
            Action::Lock(lock) => !self.parts.would_wait(thread, *lock),
            _ => true,
        }
    }

    /// The last value written to a location, or the initial one. It takes no memory.
    pub fn value_at(&self, loc: Loc) -> Scalar
        requires { IsWellFormed self.now.0 self.now.1 (Read loc false) }
        ensures { Some result ≡ history.held self.now.0 self.now.1 loc }
    {
        self.parts.heap.load(loc)
    }

    /// How many entries there are.
    pub fn len(&self) -> u64
        ensures len { result ≡ length self.now.1 }
        ensures short { result < 2 ^ 62 }
    {
        self.entries.len() as u64
    }

    /// How many threads there are.
    pub fn threads(&self) -> u32
        ensures { result ≡ self.now.0.threads }
    {
        self.parts.heap.beginning().threads()
    }

    /// What the run began with.
    pub fn beginning(&self) -> &Beginning
        ensures { result.now ≡ self.now.0 }
    {
        self.parts.heap.beginning()
    }

    /// A law: the opening is valid, and the history is legal from it, with entries that were well formed.
    pub fn keeps(&self)
        ensures opening { IsOpening self.now.0 }
        ensures legal { IsLegal self.now.0 self.now.1 }
        ensures formed { AreWellFormed self.now.0 self.now.1 }
        ensures below { EachBelow self.now.0.threads self.now.1 }
    {
        let _ = &self.entries;
    }

    /// Hands out the history. It takes no memory.
    pub fn take_history(self) -> Entries
        ensures taken { result ≡ self.1 }
        ensures opening { IsOpening self.0 }
        ensures legal { IsLegal self.0 self.1 }
        ensures formed { AreWellFormed self.0 self.1 }
        ensures below { EachBelow self.0.threads self.1 }
        ensures waits { WaitsFollow self.0.threads self.1 }
        ensures locks { LocksExclude self.1 }
    {
        Entries::from_chunks(self.entries)
    }
}
