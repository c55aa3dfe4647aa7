//! Actions on locks (UPC 7.2.4).

ghost use Rattle.std.specs.Prelude.{◌≡◌, ◌+◌, ◌++◌, ◌∷◌, [], length, true, ◌↔◌, IsTrue, IsNone, None, IfOk};
ghost use Rattle.std.specs.Prelude.{IfSome, OnErr};
ghost use Rattle.upc_values.specs.declared.action.Action.TheVariants as act;
ghost use Rattle.upc_values.specs.declared.scalar.Scalar.TheVariants as scalar;
ghost use Rattle.upc_values.specs.declared.action.Reply.TheVariants as reply;
ghost use Rattle.sync_objects.specs.layer.Locks.{fresh, give_up_answer, lock_of};
ghost use Rattle.memory_history.specs.code.Acting as said;
ghost use Rattle.memory_history.specs.code.Acting.{is_lock, next};

use crate::parts::Parts;
use upc_text::OutOfMemory;
use upc_values::{Reply, Scalar};

impl Parts {
    // Whether the thread would wait for the lock.
    pub(crate) fn would_wait(&self, thread: u32, lock: u32) -> bool
        requires { is_lock self.now lock ≡ true }
        ensures { IsTrue result ↔ IsNone (said.answer thread (act.Lock lock) self.now) }
    {
        self.locks.would_wait(thread, lock)
    }

    // The thread takes the lock, or has to wait for it.
    pub(crate) fn lock(&mut self, thread: u32, lock: u32) -> Option<Reply>
        requires { is_lock self.old lock ≡ true }
        ensures answer { result ≡ said.answer thread (act.Lock lock) self.old }
        ensures taken { IfSome result (λ r. self.new ≡ next thread (act.Lock lock) r self.old) }
        ensures waits { result ≡ None → self.new ≡ self.old }
    {
        if self.locks.would_wait(thread, lock) {
            return None;
        }
        match self.locks.take(thread, lock) {
            Ok(()) => Some(Reply::Done),
            Err(code) => Some(Reply::Refused(code)),
        }
    }

    // The thread takes the lock if nobody holds it.
    pub(crate) fn attempt(&mut self, thread: u32, lock: u32) -> Reply
        requires { is_lock self.old lock ≡ true }
        ensures answer { Some result ≡ said.answer thread (act.Attempt lock) self.old }
        ensures taken { self.new ≡ next thread (act.Attempt lock) result self.old }
    {
        match self.locks.attempt(thread, lock) {
            Ok(took) => Reply::Flag(took),
            Err(code) => Reply::Refused(code),
        }
    }

    // The thread lets the lock go.
    pub(crate) fn unlock(&mut self, thread: u32, lock: u32) -> Reply
        requires { is_lock self.old lock ≡ true }
        ensures answer { Some result ≡ said.answer thread (act.Unlock lock) self.old }
        ensures released { self.new ≡ next thread (act.Unlock lock) result self.old }
    {
        match self.locks.release(thread, lock) {
            Ok(()) => Reply::Done,
            Err(code) => Reply::Refused(code),
        }
    }

    // A new lock. Where there is no memory, nothing changes.
    pub(crate) fn make_lock(&mut self) -> Result<Reply, OutOfMemory>
        ensures answer { IfOk result (λ r. r ≡ reply.Value (scalar.Lock (length self.old.locks + 1))) }
        ensures made { IfOk result (λ _. self.new ≡ said.with_locks (self.old.locks ++ fresh ∷ []) self.old) }
        ensures kept { OnErr result (self.new ≡ self.old) }
    {
        let number = self.locks.make_lock()?;
        Ok(Reply::Value(Scalar::Lock(number)))
    }

    // The lock is given up and freed.
    pub(crate) fn free_lock(&mut self, lock: u32) -> Reply
        requires { is_lock self.old lock ≡ true }
        ensures answer { result ≡ give_up_answer (lock_of lock self.old.locks) }
        ensures freed { self.new ≡ next 0 (act.LockFree lock) result self.old }
    {
        match self.locks.give_up(lock) {
            Ok(()) => {
                self.locks.free(lock);
                Reply::Done
            }
            Err(code) => Reply::Refused(code),
        }
    }
}
