//! The machine that runs code reply by reply.

ghost use Rattle.std.specs.Prelude.{◌≡◌, ◌<◌, ◌≤◌, ◌++◌, [], ℕ, List, IfOk, OnErr, IsErr};
ghost use Rattle.stack_code.specs.layer.Codes.{Codes};
ghost use Rattle.upc_values.specs.declared.action.Reply.{Reply};
ghost use Rattle.upc_values.specs.Outcomes.{Outcome};
ghost use Rattle.stack_code.specs.layer.Outcomes.{CodeMeans};
ghost use Rattle.stack_machine.specs.layer.Machine.{listed, told_by, told_of, Answered, HasHeard, HasAsked, HasFailed};

use crate::calls::Task;
use crate::open_calls::OpenCall;
use crate::progress::Progress;
use crate::runner::Runner;
use crate::wish::{Halt, Phase, Stop, Wish};
use private_store::Store;
use stack_code::Code;
use stack_machine_values::stacks::{Operands, Spots};
use std::alloc::Global;
use std::marker::Model;
use upc_text::OutOfMemory;
use upc_values::Reply;

/// The machine of a thread. Contracts see its thread, its budget, how far it is, its body, and the call of the library
/// that is on its way, if one is.
#[derive(Drop)]
pub struct Machine {
    runner: Runner,
    threads: u32,
    shapes: usize,
    phase: Phase,
    count: u64,
    task: Task,
    under_way: Option<OpenCall>,
}

impl Model for Machine {
    ghost use Rattle.stack_machine.specs.layer.Machine.{Seen};
    ghost use Rattle.stack_machine.specs.code.Machines.{IsKept};
    ghost use Rattle.stack_machine.specs.code.Calls.{the_call};
    ghost use Rattle.stack_machine.specs.code.Tasks.{task_seen};

    ghost Value = { Seen };

    ghost view = { λ m. record {
      thread = m.runner.number;
      budget = m.runner.budget;
      phase = m.phase;
      count = m.count;
      body = task_seen m.task;
      call = m.under_way;
    } };

    ghost invariant = { λ m. IsKept m.phase m.runner.number m.runner.budget m.threads m.shapes
        (the_call m.under_way) (task_seen m.task) };
}

// The wish that stands for a stop.
fn wish_of(stop: Stop) -> Wish
    ensures { told_of result ≡ told_by stop }
{
    match stop {
        Stop::Ended(v) => Wish::Ended(v),
        Stop::Exit(v) => Wish::Exit(v),
        Stop::Fault(code, place) => Wish::Fault(code, place),
        Stop::Budget => Wish::Budget,
    }
}

impl Machine {
    /// The machine of a thread of the code, before its first action.
    pub fn make(
        alloc: Global,
        code: &Code,
        thread: u32,
        budget: u64,
    ) -> Result<Machine, OutOfMemory>
        requires thread { thread < code.now.threads }
        requires budget { 1 ≤ budget }
        ensures { IfOk result (λ m. HasHeard code.now thread budget [] m) }
    {
        code.keep();
        let store = Store::make(alloc, code.private_shapes(), code.private_initials())?;
        Ok(Machine {
            runner: Runner {
                alloc,
                number: thread,
                budget,
            },
            threads: code.threads(),
            shapes: code.shapes().len(),
            phase: Phase::Ready,
            count: 0,
            task: Task {
                function: 0,
                place: 0,
                given: Vec::new(alloc),
                operands: Operands::new(alloc),
                calls: Spots::new(alloc),
                progress: Progress {
                    store,
                    ticks: 0,
                    notified: false,
                    reply: None,
                },
            },
            under_way: None,
        })
    }

    /// Goes on to the next action, or to the end. A reply answers the action that was asked for last; without one, the
    /// same is asked for again. After want of memory the machine has failed, and answers that again, whatever it is
    /// given.
    pub fn resume(&mut self, code: &Code, reply: Option<Reply>) -> Result<Wish, OutOfMemory>
        ensures told { IfOk result (λ w. (thread budget : ℕ) (f : List Reply → Outcome) (given : List Reply)
            → ((replies : List Reply) → CodeMeans code.now thread budget replies (f replies))
            → HasHeard code.now thread budget given self.old → Answered f given reply
            → told_of w ≡ (f (given ++ listed reply)).«end») }
        ensures heard { IfOk result (λ w. (thread budget : ℕ) (f : List Reply → Outcome) (given : List Reply)
            → ((replies : List Reply) → CodeMeans code.now thread budget replies (f replies))
            → HasHeard code.now thread budget given self.old → Answered f given reply
            → HasHeard code.now thread budget (given ++ listed reply) self.new × HasAsked self.new) }
        ensures asked { IfOk result (λ _. HasAsked self.new) }
        ensures failed { OnErr result (HasFailed self.new) }
        ensures fails { HasFailed self.old → IsErr result }
    {
        match self.phase {
            Phase::Failed => Err(OutOfMemory),
            Phase::Over(stop) => {
                if reply.is_some() {
                    self.phase = Phase::Failed;
                    return Err(OutOfMemory);
                }
                Ok(wish_of(stop))
            }
            _ => {
                if code.threads() != self.threads || code.shapes().len() != self.shapes {
                    self.phase = Phase::Failed;
                    return Err(OutOfMemory);
                }
                self.task.progress.reply = reply;
                match self.task.run(&mut self.under_way, code, &self.runner) {
                    Halt::Memory => {
                        self.phase = Phase::Failed;
                        Err(OutOfMemory)
                    }
                    Halt::Asks(action, ticks) => {
                        self.phase = Phase::Asked;
                        self.count = ticks;
                        Ok(Wish::Act(action))
                    }
                    Halt::Stops(stop, ticks) => {
                        self.phase = Phase::Over(stop);
                        self.count = ticks;
                        Ok(wish_of(stop))
                    }
                }
            }
        }
    }

    /// The ticks of the thread at its last answer.
    pub fn ticks(&self) -> u64
        ensures { HasAsked self.now → (codes : Codes) (thread budget : ℕ) (f : List Reply → Outcome)
            → (given : List Reply)
            → ((replies : List Reply) → CodeMeans codes thread budget replies (f replies))
            → HasHeard codes thread budget given self.now → result ≡ (f given).ticks }
    {
        self.count
    }
}
