//! Collective calls: how often each thread has met, and what led each call.

ghost use Rattle.std.specs.Prelude.{◌≡◌, ◌<◌, ◌+◌, ◌-◌, ◌^◌, [], length, replicate, IfOk, OnErr};
ghost use Rattle.memory_history.specs.code.Calls.{asked_of};
ghost use Rattle.memory_history.specs.code.MeetsAfter as said;
ghost use Rattle.memory_history.specs.code.MeetsAfter.{times, leader_at, is_leading};
ghost use Rattle.memory_history.specs.code.Calling as calling;

use crate::calls::Asked;
use crate::leader::Leader;
use std::alloc::Global;
use std::marker::Model;
use upc_text::OutOfMemory;
use upc_values::{Reply, Scalar};

/// How often each thread has met, and the leaders of the calls, in order. Contracts see both.
#[derive(Drop)]
pub struct Meets {
    counts: Vec<usize>,
    leaders: Vec<Leader>,
}

impl Model for Meets {
    ghost use Rattle.memory_history.specs.code.MeetsAfter.{MeetsState};

    ghost Value = { MeetsState };

    ghost view = { λ m. record { counts = m.counts.items; leaders = m.leaders.items } };
}

impl Meets {
    // No call of so many threads.
    pub(crate) fn make(alloc: Global, threads: u32) -> Result<Meets, OutOfMemory>
        ensures { IfOk result (λ m. m ≡ record { counts = replicate threads 0; leaders = [] }) }
    {
        Ok(Meets {
            counts: Vec::from_elem(alloc, 0, threads as usize)?,
            leaders: Vec::new(alloc),
        })
    }

    // How often the thread has met.
    pub(crate) fn times(&self, thread: u32) -> usize
        requires { thread < length self.now.counts }
        ensures { result ≡ times thread self.now }
    {
        self.counts[thread as usize]
    }

    // Whether the thread's next call leads.
    pub(crate) fn is_leading(&self, thread: u32) -> bool
        requires { thread < length self.now.counts }
        ensures { result ≡ is_leading thread self.now }
    {
        self.counts[thread as usize] == self.leaders.len()
    }

    // The answer to a thread that meets, with so many notifies before, in a call that another has led.
    pub(crate) fn answer(&self, thread: u32, call: u8, args: &[Scalar], notifies: usize) -> Reply
        requires thread { thread < length self.now.counts }
        requires led { times thread self.now < length self.now.leaders }
        ensures { result ≡ said.joined_answer notifies call args.now (leader_at (times thread self.now) self.now) }
    {
        let number = self.counts[thread as usize];
        self.leaders[number].answer(call, args, notifies)
    }

    // How many threads have met in the call of this number with reply Done.
    pub(crate) fn done(&self, number: usize) -> u32
        requires { number < length self.now.leaders }
        ensures { result ≡ (leader_at number self.now).done }
    {
        self.leaders[number].done()
    }

    // The reply of the leader of the call of this number.
    pub(crate) fn reply(&self, number: usize) -> Reply
        requires { number < length self.now.leaders }
        ensures { result ≡ (leader_at number self.now).reply }
    {
        self.leaders[number].reply()
    }

    // What the leader of the call of this number asked for.
    pub(crate) fn asks(&self, number: usize) -> Asked
        requires { number < length self.now.leaders }
        ensures { result ≡ asked_of (said.called (leader_at number self.now)) }
    {
        self.leaders[number].asks()
    }

    // One more call, which has no reply yet. Where there is no memory, nothing changes.
    pub(crate) fn begin(
        &mut self,
        alloc: Global,
        call: u8,
        args: &[Scalar],
        notifies: usize,
    ) -> Result<(), OutOfMemory>
        ensures begun { IfOk result (λ _. self.new ≡ calling.begun_call call args.now notifies self.old) }
        ensures kept { OnErr result (self.new ≡ self.old) }
    {
        let leader = Leader::make(alloc, call, args, notifies)?;
        self.leaders.push(leader)?;
        Ok(())
    }

    // The last call is forgotten.
    pub(crate) fn forget(&mut self)
        requires { 0 < length self.old.leaders }
        ensures { self.new ≡ calling.without_last self.old }
    {
        self.leaders.pop();
    }

    // The last call, which the thread has begun, has this reply.
    pub(crate) fn lead(&mut self, thread: u32, reply: Reply)
        requires thread { thread < length self.old.counts }
        requires last { times thread self.old + 1 ≡ length self.old.leaders }
        ensures { self.new ≡ calling.settled thread reply self.old }
    {
        let last = self.leaders.len() - 1;
        self.leaders[last].settle(reply);
        self.counts[thread as usize] += 1;
    }

    // The thread meets in a call that another has led, with this reply.
    pub(crate) fn join(&mut self, thread: u32, reply: Reply)
        requires thread { thread < length self.old.counts }
        requires led { times thread self.old < length self.old.leaders }
        requires few { (leader_at (times thread self.old) self.old).done < 2 ^ 32 - 1 }
        ensures { self.new ≡ said.with_joined thread reply self.old }
    {
        let number = self.counts[thread as usize];
        self.leaders[number].join(reply);
        self.counts[thread as usize] += 1;
    }
}
