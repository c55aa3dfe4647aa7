//! The mail that a thread has sent.

ghost use Rattle.std.specs.Prelude.{◌≡◌, ◌+◌, ◌<◌, ◌==◌, ◌∷◌, ◌++◌, ℕ, cond};
ghost use Rattle.std.specs.Prelude.{length, drop, replicate, [], IfOk, OnOk, OnErr, None, slice_get};
ghost use Rattle.replica_space_copies.specs.layer.Copies.{letters};

use replica_space::Message;
use std::alloc::{AllocError as OutOfMemory, Global};
use std::marker::Model;
use upc_values::Chunks;

/// The messages that a thread has sent, each kept once, with how many of them each thread has taken. Contracts see the
/// messages that wait for each thread, oldest first.
#[derive(Drop)]
pub struct Outbox {
    messages: Chunks<Message>,
    taken: Vec<usize>,
}

impl Model for Outbox {
    ghost use Rattle.std.specs.Prelude.{List, drop, map};
    ghost use Rattle.replica_space.specs.declared.message.Message.{Message};
    ghost use Rattle.replica_space_copies.specs.code.Taken.{AreTaken};

    ghost Value = { List (List Message) };

    ghost view = { λ b. map (λ n. drop n b.messages.items) b.taken.items };

    ghost invariant = { λ b. AreTaken b.messages.items b.taken.items };
}

impl Outbox {
    // No message waits for any of so many threads.
    pub(crate) fn make(alloc: Global, threads: u32) -> Result<Outbox, OutOfMemory>
        ensures { IfOk result (λ b. b ≡ replicate threads []) }
    {
        let mut taken = Vec::new(alloc);
        for _ in 0..threads {
            taken.push(0)?;
        }
        Ok(Outbox {
            messages: Chunks::new(alloc),
            taken,
        })
    }

    // Sends a message to each thread but its own, for which none waits then.
    pub(crate) fn send(&mut self, own: usize, message: Message) -> Result<(), OutOfMemory>
        requires { own < length self.old }
        ensures many { length self.new ≡ length self.old }
        ensures sent { OnOk result ((to : ℕ) → to < length self.old → letters to self.new
            ≡ cond (to == own) [] (letters to self.old ++ message ∷ [])) }
        ensures kept { OnErr result (self.new ≡ self.old) }
    {
        self.messages.reserve()?;
        self.messages.push_reserved(message);
        self.taken[own] = self.messages.len();
        Ok(())
    }

    // Takes the oldest message that waits for a thread.
    pub(crate) fn take(&mut self, to: usize) -> Option<Message>
        requires { to < length self.old }
        ensures many { length self.new ≡ length self.old }
        ensures oldest { result ≡ slice_get (letters to self.old) 0 }
        ensures kept { result ≡ None → self.new ≡ self.old }
        ensures taken { (u : ℕ) → letters u self.new
            ≡ cond (u == to) (drop 1 (letters u self.old)) (letters u self.old) }
    {
        let next = self.taken[to];
        if next == self.messages.len() {
            return None;
        }
        let message = *self.messages.get(next)?;
        self.taken[to] = next + 1;
        Some(message)
    }

    // How many messages wait for a thread.
    pub(crate) fn count(&self, to: usize) -> usize
        requires { to < length self.now }
        ensures { result ≡ length (letters to self.now) }
    {
        self.messages.len() - self.taken[to]
    }

    // The message of this number of those that wait for a thread, counted from the oldest.
    pub(crate) fn get(&self, to: usize, number: usize) -> Option<Message>
        requires { to < length self.now }
        ensures { result ≡ slice_get (letters to self.now) number }
    {
        let first = self.taken[to];
        if number >= self.messages.len() - first {
            return None;
        }
        self.messages.get(first + number).copied()
    }
}
