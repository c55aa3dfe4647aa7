//! Notifies and waits at the barrier (UPC 6.6.1).

ghost use Rattle.std.specs.Prelude.{◌≡◌, ◌<◌, length, true, None, IfSome};
ghost use Rattle.upc_values.specs.declared.action.Action.TheVariants as act;
ghost use Rattle.upc_values.specs.declared.action.Reply.TheVariants.{Done};
ghost use Rattle.sync_objects.specs.layer.Barrier.{may_notify, may_pass};
ghost use Rattle.memory_history.specs.code.Acting as said;
ghost use Rattle.memory_history.specs.code.Acting.{next};

use crate::parts::Parts;
use upc_values::{Mark, Reply};

impl Parts {
    // Whether the thread may notify: it has waited since it last did.
    pub(crate) fn may_notify(&self, thread: u32) -> bool
        requires { thread < length self.now.barrier }
        ensures { result ≡ may_notify thread self.now.barrier }
    {
        self.barrier.may_notify(thread)
    }

    // The thread, which has waited since it last notified, notifies. It takes no memory.
    pub(crate) fn notify(&mut self, thread: u32, mark: Mark) -> Reply
        requires below { thread < length self.old.barrier }
        requires turn { may_notify thread self.old.barrier ≡ true }
        ensures answer { result ≡ Done }
        ensures notified { self.new ≡ next thread (act.Notify mark) result self.old }
    {
        self.barrier.notify(thread, mark);
        Reply::Done
    }

    // Whether the thread may pass its next round.
    pub(crate) fn may_pass(&self, thread: u32) -> bool
        requires { thread < length self.now.barrier }
        ensures { result ≡ may_pass thread self.now.barrier }
    {
        self.barrier.may_pass(thread)
    }

    // The thread waits, in a round that all threads have notified, or has to go on waiting. A wait that is refused
    // counts as well.
    pub(crate) fn wait(&mut self, thread: u32, mark: Mark) -> Option<Reply>
        requires { thread < length self.old.barrier }
        ensures answer { result ≡ said.answer thread (act.Wait mark) self.old }
        ensures passed { IfSome result (λ r. self.new ≡ next thread (act.Wait mark) r self.old) }
        ensures waits { result ≡ None → self.new ≡ self.old }
    {
        if !self.barrier.may_pass(thread) {
            return None;
        }
        match self.barrier.pass(thread, mark) {
            Ok(()) => Some(Reply::Done),
            Err(code) => {
                self.barrier.pass_over(thread);
                Some(Reply::Refused(code))
            }
        }
    }
}
