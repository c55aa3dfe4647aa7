//! From one action that is wanted to the next.

ghost use Rattle.std.specs.Prelude.{◌≡◌, ◌<◌, List, None, OnOk, IfErr};
ghost use Rattle.upc_values.specs.declared.action.Reply.{Reply};
ghost use Rattle.stack_machine.specs.code.Calls.{MayGoOn, the_call};
ghost use Rattle.stack_machine.specs.code.Inside.{StandsAt};
ghost use Rattle.stack_machine.specs.code.Kept.{IsHolding};
ghost use Rattle.stack_machine.specs.code.Machines.{Waits};
ghost use Rattle.stack_machine.specs.code.Runs.{Halts};
ghost use Rattle.stack_machine.specs.code.Tasks.{task_seen};
ghost use Rattle.stack_machine.specs.code.Walking.{HasCome};
ghost use Rattle.stack_machine.specs.layer.Machine.{listed};

use crate::calls::Task;
use crate::open_calls::OpenCall;
use crate::runner::Runner;
use crate::wish::Halt;
use stack_code::Code;

impl Task {
    // The call that is on its way, if one is, goes on to its end.
    fn end_call(
        &mut self,
        under_way: &mut Option<OpenCall>,
        code: &Code,
        runner: &Runner,
    ) -> Result<(), Halt>
        requires in_time { self.old.progress.ticks < runner.now.budget }
        requires held { IsHolding code.now.threads code.now.shapes (task_seen self.old) }
        requires inside { MayGoOn code.now.threads code.now.shapes (the_call under_way.old) (task_seen self.old) }
        ensures goes { (given : List Reply)
            → StandsAt code.now runner.now.number runner.now.budget given (listed self.old.progress.reply)
            (the_call under_way.old) (task_seen self.old)
            → HasCome code.now runner.now.number runner.now.budget given result (the_call under_way.new) self.new }
        ensures closed { OnOk result (under_way.new ≡ None) }
        ensures waits { IfErr result (λ e. Waits e runner.now.budget code.now.threads code.now.shapes
            (the_call under_way.new) (task_seen self.new)) }
        ensures held { OnOk result (IsHolding code.now.threads code.now.shapes (task_seen self.new)) }
        ensures in_time { OnOk result (self.new.progress.ticks < runner.now.budget) }
    {
        match under_way.take() {
            None => Ok(()),
            Some(call) => self.go_inside(call, under_way, code, runner),
        }
    }

    // Goes on from between two instructions.
    fn turns(&mut self, under_way: &mut Option<OpenCall>, code: &Code, runner: &Runner) -> Halt
        requires in_time { self.old.progress.ticks < runner.now.budget }
        requires thread { runner.now.number < code.now.threads }
        requires held { IsHolding code.now.threads code.now.shapes (task_seen self.old) }
        requires closed { under_way.old ≡ None }
        ensures halts { Halts code.now runner.now.number runner.now.budget result None self.old
            (the_call under_way.new) self.new }
        ensures waits { Waits result runner.now.budget code.now.threads code.now.shapes
            (the_call under_way.new) (task_seen self.new) }
    {
        loop {
            self.go(code, runner);
            match self.turn(under_way, code, runner) {
                Err(halt) => return halt,
                Ok(()) => {}
            }
        }
    }

    /// Goes on to the next action that is wanted, or to the end.
    pub(crate) fn run(
        &mut self,
        under_way: &mut Option<OpenCall>,
        code: &Code,
        runner: &Runner,
    ) -> Halt
        requires in_time { self.old.progress.ticks < runner.now.budget }
        requires thread { runner.now.number < code.now.threads }
        requires held { IsHolding code.now.threads code.now.shapes (task_seen self.old) }
        requires inside { MayGoOn code.now.threads code.now.shapes (the_call under_way.old) (task_seen self.old) }
        ensures halts { Halts code.now runner.now.number runner.now.budget result (the_call under_way.old) self.old
            (the_call under_way.new) self.new }
        ensures waits { Waits result runner.now.budget code.now.threads code.now.shapes
            (the_call under_way.new) (task_seen self.new) }
    {
        match self.end_call(under_way, code, runner) {
            Err(halt) => halt,
            Ok(()) => self.turns(under_way, code, runner),
        }
    }
}
