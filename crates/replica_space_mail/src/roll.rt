//! The events of a run, with room for more.

ghost use Rattle.std.specs.Prelude.{◌≡◌, ◌≤◌, ◌<◌, ◌+◌, ◌^◌, [], ◌∷◌, ◌++◌, cond, length, IfOk, OnOk};
ghost use Rattle.upc_values.specs.layer.Chunks.{joined};
ghost use Rattle.replica_space.specs.Runs.{next_index};

use replica_space::{Deed, Event, Events};
use std::alloc::{AllocError as OutOfMemory, Global};
use std::marker::Model;
use std::mem::replace;
use upc_values::Chunks;

// How many events a part has at least.
const PART: usize = 4096;

/// Events in parts, so that growth moves none of them. Contracts see the events, and for how many more there is room.
#[derive(Drop)]
pub struct Roll {
    full: Vec<Vec<Event>>,
    last: Vec<Event>,
}

impl Model for Roll {
    ghost use Rattle.std.specs.Prelude.{◌-◌, length, vec_capacity};
    ghost use Rattle.replica_space.specs.declared.event.Event.{Event};
    ghost use Rattle.upc_values.specs.layer.Chunks.{Roomy, roomy, joined};

    ghost Value = { Roomy Event };

    ghost view = { λ r. roomy (joined r.full.items r.last.items) (vec_capacity r.last - length r.last.items) };
}

impl Roll {
    /// No event. It takes no memory.
    pub fn new(alloc: Global) -> Roll
        ensures { result.items ≡ [] }
    {
        Roll {
            full: Vec::new(alloc),
            last: Vec::new(alloc),
        }
    }

    /// The allocator that the list takes its memory from.
    pub fn allocator(&self) -> Global {
        *self.last.allocator()
    }

    /// Takes room for so many more events. No event is moved.
    pub fn reserve(&mut self, more: usize) -> Result<(), OutOfMemory>
        ensures items { self.new.items ≡ self.old.items }
        ensures ok { OnOk result (more ≤ self.new.room) }
    {
        if more <= self.last.capacity() - self.last.len() {
            return Ok(());
        }
        let alloc = *self.last.allocator();
        self.full.reserve(1)?;
        let next = Vec::with_capacity(alloc, more.max(PART))?;
        let full = replace(&mut self.last, next);
        self.full.push_reserved(full);
        Ok(())
    }

    /// Adds an event, for which there is room. It takes no memory.
    pub fn push(&mut self, event: Event)
        requires { 0 < self.old.room }
        ensures items { self.new.items ≡ self.old.items ++ event ∷ [] }
        ensures room { self.old.room ≤ self.new.room + 1 }
    {
        self.last.push_reserved(event);
    }
    /// How many of the events are actions of the thread. It reads all events.
    pub fn count_of(&self, thread: u32) -> u64
        requires { length self.now.items < 2 ^ 62 }
        ensures { result ≡ next_index thread self.now.items }
    {
        count_parts(self.full.as_slice(), thread) + count_in(self.last.as_slice(), thread)
    }

    /// Hands out the events, each moved into its chunk; a part that has been moved is given back.
    pub fn into_events(self) -> Result<Events, OutOfMemory>
        ensures { IfOk result (λ events. events ≡ self.items) }
    {
        let mut events = Chunks::new(self.allocator());
        for part in self.full {
            move_part(&mut events, part)?;
        }
        move_part(&mut events, self.last)?;
        Ok(Events::from_chunks(events))
    }
}

// The events of a part go to the end, each moved into its chunk.
fn move_part(events: &mut Chunks<Event>, part: Vec<Event>) -> Result<(), OutOfMemory>
    ensures { OnOk result (events.new.items ≡ events.old.items ++ part.items) }
{
    for event in part {
        events.reserve()?;
        events.push_reserved(event);
    }
    Ok(())
}

// Whether the event is an action of the thread.
fn is_action_of(event: &Event, thread: u32) -> bool
    ensures { cond result 1 0 ≡ next_index thread (event.now ∷ []) }
{
    match &event.deed {
        Deed::Did { .. } => event.by == thread,
        Deed::Delivered { .. } => false,
    }
}

// How many of these events are actions of the thread.
fn count_in(part: &[Event], thread: u32) -> u64
    ensures count { result ≡ next_index thread part.now }
    ensures most { result ≤ length part.now }
{
    let mut count = 0u64;
    for event in part {
        if is_action_of(event, thread) {
            count += 1;
        }
    }
    count
}

// How many of the events in these parts are actions of the thread.
fn count_parts(parts: &[Vec<Event>], thread: u32) -> u64
    requires { length (joined parts.now []) < 2 ^ 62 }
    ensures count { result ≡ next_index thread (joined parts.now []) }
    ensures most { result ≤ length (joined parts.now []) }
{
    let mut count = 0u64;
    for part in parts {
        count += count_in(part.as_slice(), thread);
    }
    count
}
