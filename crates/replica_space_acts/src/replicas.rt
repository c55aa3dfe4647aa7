//! A run in which each thread has its own copy of the shared memory.

ghost use Rattle.std.specs.Prelude.{◌≡◌, ◌≢◌, ◌<◌, ◌^◌, ◌++◌, ◌∷◌, ◌↔◌, if◌then◌else◌, [], length, true, false};
ghost use Rattle.std.specs.Prelude.{IsTrue, IfOk, OnErr, is_some};
ghost use Rattle.upc_values.specs.declared.action.Action.TheVariants.{Read, Write};
ghost use Rattle.upc_values.specs.Openings.{IsOpening};
ghost use Rattle.upc_values.specs.History.{reply};
ghost use Rattle.upc_values.specs.Formed.{IsWellFormed, AreWellFormed};
ghost use Rattle.memory_history.specs.layer.Turns.{takes_turn};
ghost use Rattle.memory_history.specs.layer.World.{answer_of};
ghost use Rattle.replica_space.specs.Events.{did, delivered, history_in};
ghost use Rattle.replica_space.specs.Runs.{IsReplicaRun, next_index};
ghost use Rattle.replica_space.specs.Spaces.{space_after};
ghost use Rattle.replica_space_quiet.specs.layer.Loud.{is_access};
ghost use Rattle.replica_space_acts.specs.layer.Acts.{Acted, IsAnswer};
ghost use Rattle.replica_space_acts.specs.code.Asks.{MayAct, HasActed};

use memory_history::{Beginning, Step, World};
use replica_space::{Deed, Event, Events};
use replica_space_copies::Copies;
use replica_space_mail::{Roll, deliver_one, is_synchronising, make_room, prepare};
use std::alloc::Global;
use std::marker::Model;
use upc_text::OutOfMemory;
use upc_values::{Action, Loc, ObjectRef, Reply, Scalar, Shape, copy_action};

/// A run with a copy of the shared memory for each thread: what it began with, and the list of its events. Contracts
/// see both. The opening is a valid one, the events are a replica run from it, and each action in them was well formed
/// after the actions before it.
#[derive(Drop)]
pub struct Replicas {
    // It has the actions other than reads and writes.
    world: World,
    copies: Copies,
    events: Roll,
    count: u64,
}

impl Model for Replicas {
    ghost use Rattle.std.specs.Prelude.{List};
    ghost use Rattle.upc_values.specs.Openings.{Opening};
    ghost use Rattle.replica_space.specs.declared.event.Event.{Event};
    ghost use Rattle.replica_space_acts.specs.code.Sound.{AreReplicas};

    ghost Value = { Opening × List Event };

    ghost view = { λ r. (r.world.0, r.events.items) };

    ghost invariant = { λ r. AreReplicas r.world r.copies r.events.items r.count };
}

// The event in which a thread does an action.
fn event_of(thread: u32, index: u32, action: Action, reply: Reply) -> Event
    ensures { result ≡ did thread index action reply }
{
    Event {
        by: thread,
        deed: Deed::Did {
            index,
            action,
            reply,
        },
    }
}

impl Replicas {
    /// A run with these declared objects, initial values and shapes, for this many threads, and no event.
    pub fn make(
        alloc: Global,
        declared: &[ObjectRef],
        initials: &[(Loc, Scalar)],
        shapes: &[Shape],
        threads: u32,
    ) -> Result<Replicas, OutOfMemory>
        requires { IsOpening record {
          threads = threads;
          declared = declared.now;
          initials = initials.now;
          shapes = shapes.now;
        } }
        ensures opening { IfOk result (λ r. r.0
            ≡ record {
              threads = threads;
              declared = declared.now;
              initials = initials.now;
              shapes = shapes.now;
            }) }
        ensures empty { IfOk result (λ r. r.1 ≡ []) }
    {
        let world = World::make(alloc, declared, initials, shapes, threads)?;
        let copies = Copies::make(alloc, threads)?;
        Ok(Replicas {
            world,
            copies,
            events: Roll::new(alloc),
            count: 0,
        })
    }

    /// A thread delivers the oldest message that waits for `to` from `from`, with one event; false where none waits.
    /// After want of memory, which also comes where there would be 2^62 events, the run is as it was.
    pub fn deliver(&mut self, by: u32, to: u32, from: u32) -> Result<bool, OutOfMemory>
        requires by { by < self.old.0.threads }
        requires to { to < self.old.0.threads }
        requires from { from < self.old.0.threads }
        ensures found { IfOk result (λ b. IsTrue b
            ↔ ((space_after self.old.0.threads self.old.1).mail to from ≢ [])) }
        ensures events { IfOk result (λ b. self.new.1
            ≡ (if b then self.old.1 ++ delivered by to from ∷ [] else self.old.1)) }
        ensures opening { self.new.0 ≡ self.old.0 }
        ensures err { OnErr result (self.new.1 ≡ self.old.1) }
    {
        let count = make_room(&self.copies, &mut self.events, self.count, false)?;
        if deliver_one(&mut self.copies, &mut self.events, by, to, from) {
            self.count = count;
            return Ok(true);
        }
        Ok(false)
    }

    /// Thread `thread` does its action number `index`. Before a synchronising action it delivers all mail that waits,
    /// by receiver, then sender, oldest first, each message with an event; then the action is an event with its reply.
    /// `Disabled`, with nothing changed, exactly where a Lock or a Wait has no reply now. After want of memory, which
    /// also comes where there would be 2^62 events, the run is as it was.
    pub fn act(&mut self, thread: u32, index: u32, action: &Action) -> Result<Step, OutOfMemory>
        requires below { thread < self.old.0.threads }
        requires asked { IsWellFormed self.old.0 (history_in self.old.1) action.now }
        requires turns { takes_turn (history_in self.old.1) thread action.now ≡ true }
        requires index { index ≡ next_index thread self.old.1 }
        ensures acted { IfOk result (λ s.
            Acted self.old.0 thread index action.now self.old.1 (answer_of s) self.new.1) }
        ensures answer { IfOk result (λ s. IsAnswer self.old.0 thread action.now self.new.1 (answer_of s)) }
        ensures opening { self.new.0 ≡ self.old.0 }
        ensures err { OnErr result (self.new.1 ≡ self.old.1) }
    {
        match action {
            Action::Read { loc, strict } => self.read(thread, index, *loc, *strict),
            Action::Write { strict, loc, value } => {
                if *strict {
                    self.spread(thread, index, *loc, *value)
                } else {
                    self.send(thread, index, *loc, *value)
                }
            }
            _ => self.perform(thread, index, action),
        }
    }

    // The thread reads what its copy has, else what the location began with; if strictly, once all mail is delivered.
    fn read(&mut self, thread: u32, index: u32, loc: Loc, strict: bool) -> Result<Step, OutOfMemory>
        requires { MayAct self.old.0 thread index (Read loc strict) self.old.1 }
        ensures ok { IfOk result (λ s.
            HasActed self.old.0 thread index (Read loc strict) self.old.1 (answer_of s) self.new.1) }
        ensures opening { self.new.0 ≡ self.old.0 }
        ensures err { OnErr result (self.new.1 ≡ self.old.1) }
    {
        self.world.keeps();
        let count = make_room(&self.copies, &mut self.events, self.count, strict)?;
        let threads = self.world.threads();
        prepare(&mut self.copies, &mut self.events, thread, threads, strict);
        let value = match self.copies.get(thread, loc) {
            Some(message) => message.value,
            None => self.world.value_at(loc),
        };
        let reply = Reply::Value(value);
        let action = Action::Read { loc, strict };
        self.events.push(event_of(thread, index, action, reply));
        self.count = count;
        Ok(Step::Done(reply))
    }

    // The thread writes relaxedly: the write is sent to each other thread.
    fn send(
        &mut self,
        thread: u32,
        index: u32,
        loc: Loc,
        value: Scalar,
    ) -> Result<Step, OutOfMemory>
        requires { MayAct self.old.0 thread index (Write false loc value) self.old.1 }
        ensures ok { IfOk result (λ s.
            HasActed self.old.0 thread index (Write false loc value) self.old.1 (answer_of s) self.new.1) }
        ensures opening { self.new.0 ≡ self.old.0 }
        ensures err { OnErr result (self.new.1 ≡ self.old.1) }
    {
        let count = make_room(&self.copies, &mut self.events, self.count, false)?;
        self.copies.send(thread, index, loc, value)?;
        let strict = false;
        let action = Action::Write { strict, loc, value };
        self.events
            .push(event_of(thread, index, action, Reply::Done));
        self.count = count;
        Ok(Step::Done(Reply::Done))
    }

    // The thread writes strictly: once all mail is delivered, the write goes into every copy.
    fn spread(
        &mut self,
        thread: u32,
        index: u32,
        loc: Loc,
        value: Scalar,
    ) -> Result<Step, OutOfMemory>
        requires { MayAct self.old.0 thread index (Write true loc value) self.old.1 }
        ensures ok { IfOk result (λ s.
            HasActed self.old.0 thread index (Write true loc value) self.old.1 (answer_of s) self.new.1) }
        ensures opening { self.new.0 ≡ self.old.0 }
        ensures err { OnErr result (self.new.1 ≡ self.old.1) }
    {
        let count = make_room(&self.copies, &mut self.events, self.count, true)?;
        self.copies.reserve()?;
        let threads = self.world.threads();
        prepare(&mut self.copies, &mut self.events, thread, threads, true);
        self.copies.spread(thread, index, loc, value);
        let strict = true;
        let action = Action::Write { strict, loc, value };
        self.events
            .push(event_of(thread, index, action, Reply::Done));
        self.count = count;
        Ok(Step::Done(Reply::Done))
    }

    // The thread does an action that is no read and no write.
    fn perform(&mut self, thread: u32, index: u32, action: &Action) -> Result<Step, OutOfMemory>
        requires may { MayAct self.old.0 thread index action.now self.old.1 }
        requires loud { is_access action.now ≡ false }
        ensures ok { IfOk result (λ s.
            HasActed self.old.0 thread index action.now self.old.1 (answer_of s) self.new.1) }
        ensures opening { self.new.0 ≡ self.old.0 }
        ensures err { OnErr result (self.new.1 ≡ self.old.1) }
    {
        if !self.world.is_legal(thread, action) {
            return Ok(Step::Disabled);
        }
        let meets = is_synchronising(action);
        let count = make_room(&self.copies, &mut self.events, self.count, meets)?;
        let copy = copy_action(self.events.allocator(), action)?;
        let Step::Done(reply) = self.world.perform(thread, index, action)? else {
            unreachable!()
        };
        let threads = self.world.threads();
        prepare(&mut self.copies, &mut self.events, thread, threads, meets);
        self.events.push(event_of(thread, index, copy, reply));
        self.count = count;
        Ok(Step::Done(reply))
    }

    /// Whether an action may be asked for now, after the actions in the events. It takes no memory.
    pub fn is_well_formed(&self, action: &Action) -> bool
        ensures { IsTrue result ↔ IsWellFormed self.now.0 (history_in self.now.1) action.now }
    {
        self.world.is_well_formed(action)
    }

    /// Whether the action keeps the thread's notifies and waits in turn. It takes no memory.
    pub fn takes_turn(&self, thread: u32, action: &Action) -> bool
        requires { thread < self.now.0.threads }
        ensures { result ≡ takes_turn (history_in self.now.1) thread action.now }
    {
        self.world.takes_turn(thread, action)
    }

    /// Whether an action of a thread would get a reply now: each would but a Lock or a Wait that has to wait. It takes
    /// no memory.
    pub fn would_go(&self, thread: u32, action: &Action) -> bool
        requires below { thread < self.now.0.threads }
        requires formed { IsWellFormed self.now.0 (history_in self.now.1) action.now }
        ensures { result ≡ is_some (reply self.now.0 (history_in self.now.1) thread action.now) }
    {
        self.world.is_legal(thread, action)
    }

    /// The number of a thread's next action. It reads all events.
    pub fn next_index(&self, thread: u32) -> u64
        ensures { result ≡ next_index thread self.now.1 }
    {
        self.events.count_of(thread)
    }

    /// Hands out the events, each moved into its chunk.
    pub fn into_events(self) -> Result<Events, OutOfMemory>
        ensures events { IfOk result (λ events. events ≡ self.1) }
        ensures opening { IsOpening self.0 }
        ensures run { IsReplicaRun self.0 self.1 }
        ensures formed { AreWellFormed self.0 (history_in self.1) }
    {
        self.events.into_events()
    }

    /// How many events there are.
    pub fn len(&self) -> u64
        ensures len { result ≡ length self.now.1 }
        ensures short { result < 2 ^ 62 }
    {
        self.count
    }

    /// How many threads there are.
    pub fn threads(&self) -> u32
        ensures { result ≡ self.now.0.threads }
    {
        self.world.threads()
    }

    /// What the run began with.
    pub fn beginning(&self) -> &Beginning
        ensures { result.now ≡ self.now.0 }
    {
        self.world.beginning()
    }

    /// A law: the opening is valid, the events are a replica run from it, and each action was well formed.
    pub fn keeps(&self)
        ensures opening { IsOpening self.now.0 }
        ensures run { IsReplicaRun self.now.0 self.now.1 }
        ensures formed { AreWellFormed self.now.0 (history_in self.now.1) }
    {
        let _ = &self.events;
    }
}
