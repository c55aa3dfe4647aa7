//! The leader of a collective call.

ghost use Rattle.std.specs.Prelude.{◌≡◌, ◌<◌, ◌-◌, ◌^◌, false, IfOk};
ghost use Rattle.upc_values.specs.declared.action.Reply.TheVariants as replies;
ghost use Rattle.upc_values.specs.History as history;
ghost use Rattle.memory_history.specs.code.Calls.{asked_of};
ghost use Rattle.memory_history.specs.code.MeetsAfter as said;

use crate::calls::{Asked, read_call};
use block_layout::run_error::COLLECTIVE_MISMATCH;
use std::alloc::Global;
use std::marker::Model;
use upc_text::OutOfMemory;
use upc_values::{Args, Listing, Reply, Scalar, same_scalar};

/// The leader of a call: what it called, how often it had notified before, its reply, and how many threads have met in
/// the call with reply Done. Contracts see these.
#[derive(Drop)]
pub struct Leader {
    call: u8,
    args: Args,
    notifies: usize,
    reply: Reply,
    done: u32,
}

impl Model for Leader {
    ghost use Rattle.memory_history.specs.code.MeetsAfter.{LeaderState};

    ghost Value = { LeaderState };

    ghost view = { λ l. record {
      call = l.call;
      args = l.args;
      notifies = l.notifies;
      reply = l.reply;
      done = l.done;
    } };
}

// Whether both are one list.
fn same_list(a: &[Scalar], b: &[Scalar]) -> bool
    ensures { result ≡ history.same_list a.now b.now }
{
    if a.len() != b.len() {
        return false;
    }
    for at in 0..a.len() {
        if !same_scalar(&a[at], &b[at]) {
            return false;
        }
    }
    true
}

// Whether the reply is Done.
pub(crate) fn is_done(reply: Reply) -> bool
    ensures { result ≡ said.is_done_reply reply }
{
    matches!(reply, Reply::Done)
}

impl Leader {
    // The leader of a call that has no reply yet.
    pub(crate) fn make(
        alloc: Global,
        call: u8,
        args: &[Scalar],
        notifies: usize,
    ) -> Result<Leader, OutOfMemory>
        ensures { IfOk result (λ l. l ≡ said.leading call args.now notifies (replies.Flag false)) }
    {
        Ok(Leader {
            call,
            args: Listing::from_vec(args.to_vec(alloc)?),
            notifies,
            reply: Reply::Flag(false),
            done: 0,
        })
    }

    // How many threads have met with reply Done.
    pub(crate) fn done(&self) -> u32
        ensures { result ≡ self.now.done }
    {
        self.done
    }

    // The reply.
    pub(crate) fn reply(&self) -> Reply
        ensures { result ≡ self.now.reply }
    {
        self.reply
    }

    // What the leader asked for.
    pub(crate) fn asks(&self) -> Asked
        ensures { result ≡ asked_of (said.called self.now) }
    {
        read_call(self.call, self.args.as_slice())
    }

    // The answer to a thread that meets in the call, with so many notifies before.
    pub(crate) fn answer(&self, call: u8, args: &[Scalar], notifies: usize) -> Reply
        ensures { result ≡ said.joined_answer notifies call args.now self.now }
    {
        if call == self.call && same_list(args, self.args.as_slice()) && notifies == self.notifies {
            self.reply
        } else {
            Reply::Refused(COLLECTIVE_MISMATCH)
        }
    }

    // The call has this reply; its leader alone has met so far.
    pub(crate) fn settle(&mut self, reply: Reply)
        ensures { self.new ≡ said.leading self.old.call self.old.args self.old.notifies reply }
    {
        self.reply = reply;
        self.done = if is_done(reply) { 1 } else { 0 };
    }

    // One thread more has met, with this reply.
    pub(crate) fn join(&mut self, reply: Reply)
        requires { self.old.done < 2 ^ 32 - 1 }
        ensures { self.new ≡ said.joined reply self.old }
    {
        if is_done(reply) {
            self.done += 1;
        }
    }
}
