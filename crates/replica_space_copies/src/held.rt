//! What the copies of all threads have.

ghost use Rattle.std.specs.Prelude.{◌≡◌, ◌+◌, ◌<◌, ◌≤◌, ◌==◌, ◌&&◌, ℕ, cond, Some, IfOk, OnOk, IfSome, [], None};
ghost use Rattle.block_layout.specs.declared.place.Loc.{Loc};
ghost use Rattle.upc_values.specs.Scalars.{same_loc};
ghost use Rattle.replica_space.specs.Spaces.{is_behind, with_mail, with_message};
ghost use Rattle.replica_space_copies.specs.layer.Copies.{held_at};
ghost use Rattle.replica_space_copies.specs.layer.Copies as said;

use replica_space::Message;
use std::alloc::{AllocError as OutOfMemory, Global};
use std::collections::HashMap;
use std::marker::Model;
use upc_values::Loc;

/// A location in the copy of a thread.
#[derive(Clone, Copy, PartialEq, Eq, Hash)]
pub struct Key {
    holder: usize,
    object: u32,
    thread: u32,
    offset: u32,
}

fn key_of(holder: usize, loc: Loc) -> Key
    ensures { result ≡ said.key_of holder loc }
{
    Key {
        holder,
        object: loc.object,
        thread: loc.thread,
        offset: loc.offset,
    }
}

/// The copies of all threads: the message that each has at each location. Contracts see them, and for how many more
/// there is room.
#[derive(Drop)]
pub struct Held {
    map: HashMap<Key, Message>,
}

impl Model for Held {
    ghost use Rattle.std.specs.HashMap.{spare};
    ghost use Rattle.replica_space_copies.specs.layer.Copies.{HeldState};

    ghost Value = { HeldState };

    ghost view = { λ h. record { entries = h.map.entries; room = spare h.map } };
}

impl Held {
    // Empty copies. It takes no memory.
    pub(crate) fn new(alloc: Global) -> Held
        ensures { (t : ℕ) (l : Loc) → held_at result t l ≡ None }
    {
        Held {
            map: HashMap::new(alloc),
        }
    }

    // The message that a thread's copy has at a location.
    pub(crate) fn get(&self, holder: usize, loc: Loc) -> Option<Message>
        ensures { result ≡ held_at self.now holder loc }
    {
        self.map.get(&key_of(holder, loc)).copied()
    }

    // Takes room for so many more messages.
    pub(crate) fn reserve(&mut self, more: usize) -> Result<(), OutOfMemory>
        ensures same { (t : ℕ) (l : Loc) → held_at self.new t l ≡ held_at self.old t l }
        ensures room { self.old.room ≤ self.new.room }
        ensures ok { OnOk result (more ≤ self.new.room) }
    {
        self.map.reserve(more)
    }

    // Puts a message, for which there is room, into a thread's copy at its location. It takes no memory.
    pub(crate) fn put(&mut self, holder: usize, message: Message)
        requires { 0 < self.old.room }
        ensures put { (t : ℕ) (l : Loc) → held_at self.new t l
            ≡ cond ((t == holder) && same_loc message.loc l) (Some message) (held_at self.old t l) }
        ensures room { self.old.room ≤ self.new.room + 1 }
    {
        let Ok(_) = self.map.insert(key_of(holder, message.loc), message) else {
            unreachable!()
        };
    }

    // Puts a message, for which there is room, into the copies of so many threads. It takes no memory.
    pub(crate) fn put_in_each(&mut self, threads: usize, message: Message)
        requires { threads ≤ self.old.room }
        ensures put { (t : ℕ) (l : Loc) → t < threads
            → held_at self.new t l ≡ with_message message l (held_at self.old t l) }
        ensures room { self.old.room ≤ self.new.room + threads }
    {
        for holder in 0..threads {
            self.put(holder, message);
        }
    }

    // Whether a thread's copy has a later message at this one's location.
    fn is_behind(&self, holder: usize, message: &Message) -> bool
        ensures { result ≡ is_behind message.now (held_at self.now holder message.now.loc) }
    {
        match self.get(holder, message.loc) {
            Some(kept) => kept.stamp.is_later(&message.stamp),
            None => false,
        }
    }

    // Puts a message, for which there is room, into a thread's copy, unless that has a later one at its location. It
    // takes no memory.
    pub(crate) fn come(&mut self, holder: usize, message: Message)
        requires { 0 < self.old.room }
        ensures come { (t : ℕ) (l : Loc) → held_at self.new t l
            ≡ cond (t == holder) (with_mail message l (held_at self.old t l)) (held_at self.old t l) }
        ensures room { self.old.room ≤ self.new.room + 1 }
    {
        if self.is_behind(holder, &message) {
            return;
        }
        self.put(holder, message);
    }
}
