//! The locks of a run (UPC 7.2.4).

ghost use Rattle.std.specs.Prelude.{◌≡◌, ◌++◌, [], ◌∷◌, length, Some, IfOk, OnErr, IsSome, IsNone, IsTrue, ◌↔◌};
ghost use Rattle.std.specs.Prelude.{if◌then◌else◌};
ghost use Rattle.sync_objects.specs.layer.Locks as said;
ghost use Rattle.sync_objects.specs.layer.Locks.{IsMade, fresh, lock_of, with_lock, told, told_flag};

use block_layout::run_error::{LOCK_AGAIN, LOCK_FREED, LOCK_NOT_HELD};
use std::alloc::Global;
use std::marker::Model;
use upc_text::OutOfMemory;

/// What has become of a lock: who holds it, and whether it was given up and freed.
#[derive(Clone, Copy, PartialEq, Eq, Debug)]
pub struct LockState {
    pub holder: Option<u32>,
    pub given_up: bool,
    pub freed: bool,
}

/// The locks that were made, numbered from 1. Contracts see the list.
#[derive(Drop)]
pub struct Locks {
    states: Vec<LockState>,
}

impl Model for Locks {
    ghost use Rattle.std.specs.Prelude.{List};
    ghost use Rattle.sync_objects.specs.declared.locks.LockState.{LockState};

    ghost Value = { List LockState };

    ghost view = { λ l. l.states.items };
}

impl Locks {
    /// No lock.
    pub fn make(alloc: Global) -> Result<Locks, OutOfMemory>
        ensures { IfOk result (λ locks. locks ≡ []) }
    {
        Ok(Locks {
            states: Vec::new(alloc),
        })
    }

    /// How many locks were made.
    pub fn len(&self) -> usize
        ensures { result ≡ length self.now }
    {
        self.states.len()
    }

    /// A new lock, which nobody holds; its number is the next one. Where there is no memory, no lock is made.
    pub fn make_lock(&mut self) -> Result<u32, OutOfMemory>
        ensures number { IfOk result (λ number. number ≡ length self.new) }
        ensures made { IfOk result (λ _. self.new ≡ self.old ++ fresh ∷ []) }
        ensures kept { OnErr result (self.new ≡ self.old) }
    {
        if self.states.len() >= u32::MAX as usize {
            return Err(OutOfMemory);
        }
        self.states.push(LockState {
            holder: None,
            given_up: false,
            freed: false,
        })?;
        Ok(self.states.len() as u32)
    }

    /// Whether the thread would wait for the lock: another thread holds it, and it is not freed.
    pub fn would_wait(&self, thread: u32, lock: u32) -> bool
        requires { IsMade lock self.now }
        ensures { IsTrue result ↔ IsNone (said.lock_answer thread (lock_of lock self.now)) }
    {
        let state = &self.states[lock as usize - 1];
        match state.holder {
            Some(holder) => !state.freed && holder != thread,
            None => false,
        }
    }

    /// The thread takes the lock. The errors: the lock is freed, or the thread holds it; then nothing changes.
    pub fn take(&mut self, thread: u32, lock: u32) -> Result<(), u8>
        requires made { IsMade lock self.old }
        requires ready { IsSome (said.lock_answer thread (lock_of lock self.old)) }
        ensures answer { said.lock_answer thread (lock_of lock self.old) ≡ Some (told result) }
        ensures taken { IfOk result (λ _. self.new ≡ with_lock lock (said.held_by thread) self.old) }
        ensures kept { OnErr result (self.new ≡ self.old) }
    {
        let state = &mut self.states[lock as usize - 1];
        if state.freed {
            return Err(LOCK_FREED);
        }
        if state.holder.is_some() {
            return Err(LOCK_AGAIN);
        }
        state.holder = Some(thread);
        Ok(())
    }

    /// The thread takes the lock if nobody holds it, and says whether it did. The error: the lock is freed.
    pub fn attempt(&mut self, thread: u32, lock: u32) -> Result<bool, u8>
        requires { IsMade lock self.old }
        ensures answer { said.attempt_answer (lock_of lock self.old) ≡ told_flag result }
        ensures taken { IfOk result (λ took. self.new
            ≡ (if took then with_lock lock (said.held_by thread) self.old else self.old)) }
        ensures kept { OnErr result (self.new ≡ self.old) }
    {
        let state = &mut self.states[lock as usize - 1];
        if state.freed {
            return Err(LOCK_FREED);
        }
        if state.holder.is_some() {
            return Ok(false);
        }
        state.holder = Some(thread);
        Ok(true)
    }

    /// The thread lets the lock go. The errors: the lock is freed, or the thread does not hold it.
    pub fn release(&mut self, thread: u32, lock: u32) -> Result<(), u8>
        requires { IsMade lock self.old }
        ensures answer { said.unlock_answer thread (lock_of lock self.old) ≡ told result }
        ensures released { IfOk result (λ _. self.new ≡ with_lock lock said.let_go self.old) }
        ensures kept { OnErr result (self.new ≡ self.old) }
    {
        let state = &mut self.states[lock as usize - 1];
        if state.freed {
            return Err(LOCK_FREED);
        }
        if state.holder != Some(thread) {
            return Err(LOCK_NOT_HELD);
        }
        state.holder = None;
        Ok(())
    }

    /// The lock is given up, held or not. The error: it was given up before.
    pub fn give_up(&mut self, lock: u32) -> Result<(), u8>
        requires { IsMade lock self.old }
        ensures answer { said.give_up_answer (lock_of lock self.old) ≡ told result }
        ensures given_up { IfOk result (λ _. self.new ≡ with_lock lock said.as_given_up self.old) }
        ensures kept { OnErr result (self.new ≡ self.old) }
    {
        let state = &mut self.states[lock as usize - 1];
        if state.given_up {
            return Err(LOCK_FREED);
        }
        state.given_up = true;
        Ok(())
    }

    /// The lock, which was given up, is freed, held or not.
    pub fn free(&mut self, lock: u32)
        requires { IsMade lock self.old }
        ensures { self.new ≡ with_lock lock said.as_freed self.old }
    {
        self.states[lock as usize - 1].freed = true;
    }
}
