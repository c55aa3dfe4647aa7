//! Collective calls (UPC 7.2, 7.3): the first thread that meets in one leads it, and the others are answered as it was.

ghost use Rattle.std.specs.Prelude.{◌≡◌, ◌<◌, ◌≤◌, ◌^◌, true, length, IfOk, OnErr};
ghost use Rattle.upc_values.specs.declared.action.Action.TheVariants as act;
ghost use Rattle.memory_history.specs.code.MeetsAfter.{times, is_leading, leader_at, called, leading, joined_answer};
ghost use Rattle.memory_history.specs.code.MeetsAfter.{with_leader, with_joined};
ghost use Rattle.memory_history.specs.code.Acting as said;
ghost use Rattle.memory_history.specs.code.Acting.{MayAct, HasLock, with_meets};

use crate::calls::{Asked, read_call};
use crate::leader::is_done;
use crate::parts::Parts;
use block_layout::SharedPtr;
use std::alloc::Global;
use upc_text::OutOfMemory;
use upc_values::{Reply, Scalar};

impl Parts {
    // The leader's allocation: null for no bytes.
    fn lead_alloc(&mut self, nblocks: u64, nbytes: u64, shape: u64) -> Result<Reply, OutOfMemory>
        requires { said.may_call self.old (Asked.Allocates nblocks nbytes shape) ≡ true }
        ensures answer { IfOk result (λ r. r ≡ said.led_answer self.old (Asked.Allocates nblocks nbytes shape)) }
        ensures led { IfOk result (λ r. self.new ≡ said.led (Asked.Allocates nblocks nbytes shape) r self.old) }
        ensures kept { OnErr result (self.new ≡ self.old) }
    {
        if nblocks == 0 || nbytes == 0 {
            return Ok(Reply::Value(Scalar::Shared(SharedPtr::NULL)));
        }
        let _few = self.heap.beginning().shapes();
        self.allocate(nblocks, nbytes, None, shape as u32)
    }

    // The leader's free: nothing for null.
    fn lead_free(&mut self, pointer: &SharedPtr) -> Reply
        ensures answer { result ≡ said.led_answer self.old (Asked.Frees pointer.now) }
        ensures led { self.new ≡ said.led (Asked.Frees pointer.now) result self.old }
    {
        if pointer.is_null() {
            return Reply::Done;
        }
        self.release(pointer)
    }

    // The leader gives a lock up: nothing for null.
    fn lead_lock_free(&mut self, lock: u32) -> Reply
        requires { lock ≤ length self.old.locks }
        ensures answer { result ≡ said.led_answer self.old (Asked.FreesLock lock) }
        ensures led { self.new ≡ said.led (Asked.FreesLock lock) result self.old }
    {
        if lock == 0 {
            return Reply::Done;
        }
        match self.locks.give_up(lock) {
            Ok(()) => Reply::Done,
            Err(code) => Reply::Refused(code),
        }
    }

    // What a leading call asks for. Where there is no memory, nothing changes.
    fn lead(&mut self, asks: &Asked) -> Result<Reply, OutOfMemory>
        requires { said.may_call self.old asks.now ≡ true }
        ensures answer { IfOk result (λ r. r ≡ said.led_answer self.old asks.now) }
        ensures led { IfOk result (λ r. self.new ≡ said.led asks.now r self.old) }
        ensures kept { OnErr result (self.new ≡ self.old) }
    {
        match *asks {
            Asked::Allocates {
                nblocks,
                nbytes,
                shape,
            } => self.lead_alloc(nblocks, nbytes, shape),
            Asked::MakesLock => self.make_lock(),
            Asked::Frees(pointer) => Ok(self.lead_free(&pointer)),
            Asked::FreesLock(lock) => Ok(self.lead_lock_free(lock)),
            _ => Ok(Reply::Done),
        }
    }

    // The thread leads a call. Where there is no memory, nothing changes.
    fn lead_call(
        &mut self,
        alloc: Global,
        thread: u32,
        call: u8,
        args: &[Scalar],
        asks: &Asked,
    ) -> Result<Reply, OutOfMemory>
        requires asked { said.may_call self.old asks.now ≡ true }
        requires attends { thread < length self.old.barrier }
        requires meets { thread < length self.old.meets.counts }
        requires leads { is_leading thread self.old.meets ≡ true }
        ensures answer { IfOk result (λ r. r ≡ said.led_answer self.old asks.now) }
        ensures led { IfOk result (λ r. self.new ≡ with_meets
            (with_leader thread (leading call args.now (said.notifies thread self.old) r) self.old.meets)
            (said.led asks.now r self.old)) }
        ensures kept { OnErr result (self.new ≡ self.old) }
    {
        let notifies = self.barrier.notifies(thread);
        self.meets.begin(alloc, call, args, notifies)?;
        match self.lead(asks) {
            Ok(reply) => {
                self.meets.lead(thread, reply);
                Ok(reply)
            }
            Err(error) => {
                self.meets.forget();
                Err(error)
            }
        }
    }

    // The thread meets in a call that another has led.
    fn join_call(&mut self, thread: u32, call: u8, args: &[Scalar]) -> Reply
        requires attends { thread < length self.old.barrier }
        requires meets { thread < length self.old.meets.counts }
        requires led { times thread self.old.meets < length self.old.meets.leaders }
        requires few { (leader_at (times thread self.old.meets) self.old.meets).done ≤ 32 }
        ensures answer { result ≡ joined_answer (said.notifies thread self.old) call args.now
            (leader_at (times thread self.old.meets) self.old.meets) }
        ensures met { self.new ≡ with_meets (with_joined thread result self.old.meets) self.old }
    {
        let notifies = self.barrier.notifies(thread);
        let reply = self.meets.answer(thread, call, args, notifies);
        self.meets.join(thread, reply);
        reply
    }

    // Once all threads have met in the call of this number with reply Done, a lock that it gave up is freed.
    fn end_call(&mut self, number: usize)
        requires made { number < length self.old.meets.leaders }
        requires lent { HasLock (called (leader_at number self.old.meets))
            (leader_at number self.old.meets).reply self.old }
        ensures { self.new ≡ said.ended number self.old }
    {
        if self.meets.done(number) != self.heap.beginning().threads() {
            return;
        }
        let done = is_done(self.meets.reply(number));
        match self.meets.asks(number) {
            Asked::FreesLock(lock) if done && lock != 0 => self.locks.free(lock),
            _ => {}
        }
    }

    // The thread meets in its next call. Where there is no memory, nothing changes.
    pub(crate) fn meet(
        &mut self,
        alloc: Global,
        thread: u32,
        call: u8,
        args: &[Scalar],
    ) -> Result<Reply, OutOfMemory>
        requires { MayAct thread (act.Meet call args.now) self.old }
        ensures answer { IfOk result (λ r. r ≡ said.meet_answer thread call args.now self.old) }
        ensures met { IfOk result (λ r. self.new ≡ said.met thread call args.now r self.old) }
        ensures kept { OnErr result (self.new ≡ self.old) }
    {
        let number = self.meets.times(thread);
        if !self.meets.is_leading(thread) {
            let reply = self.join_call(thread, call, args);
            self.end_call(number);
            return Ok(reply);
        }
        let asks = read_call(call, args);
        let reply = self.lead_call(alloc, thread, call, args, &asks)?;
        self.end_call(number);
        Ok(reply)
    }
}
