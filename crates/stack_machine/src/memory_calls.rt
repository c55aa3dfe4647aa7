//! Calls of the library that ask for many actions: they begin, and they go on.

ghost use Rattle.std.specs.Prelude.{◌≡◌, ◌+◌, ◌<◌, ◌≤◌, ◌^◌, ℕ, List, Some, None, IfOk, IfErr, IfSome, OnOk, drop};
ghost use Rattle.std.specs.Prelude.{slice_get, length, true, pos, IsTrue, ◌∷◌};
ghost use Rattle.stack_machine.specs.declared.calls.Task.{Task};
ghost use Rattle.upc_values.specs.declared.action.Reply.{Reply};
ghost use Rattle.upc_values.specs.LibraryCalls.{library_call, gives_zero};
ghost use Rattle.stack_code.specs.layer.Codes.{function_at};
ghost use Rattle.thread_values.specs.layer.Copies.{copies, shapes_in};
ghost use Rattle.stack_machine.specs.code.Calls.{call_instr, left_of, the_call, on_its_way};
ghost use Rattle.stack_machine.specs.code.Calls.{WritesHeld, IsGoingOn, FailsSo, HasLeft, UnlessWant};
ghost use Rattle.stack_machine.specs.code.Calls.{walks, may_meet, may_begin};
ghost use Rattle.thread_steps.specs.Library.{is_formed};
ghost use Rattle.stack_machine.specs.code.Inside.{MayMeet, StandsAt};
ghost use Rattle.stack_machine.specs.code.Kept.{AreHeld, IsHolding};
ghost use Rattle.stack_machine.specs.code.Machines.{Waits};
ghost use Rattle.stack_machine.specs.code.Runs.{Halts};
ghost use Rattle.stack_machine.specs.code.Standing.{Stands};
ghost use Rattle.stack_machine.specs.code.Steps.{Advances};
ghost use Rattle.stack_machine.specs.code.Tasks.{task_seen};
ghost use Rattle.stack_machine.specs.code.Turns.{IsFirm};
ghost use Rattle.stack_machine.specs.code.Walking.{HasCome, HasEntered};
ghost use Rattle.stack_machine.specs.layer.Machine.{listed};

use crate::calls::Task;
use crate::open_calls::{OpenCall, Walk};
use crate::progress::Progress;
use crate::runner::Runner;
use crate::wish::Halt;
use stack_code::{Code, Instr, Operation, ThreadWork};
use thread_values::{collective_number, is_copying, private_of, spec_of};
use upc_library::Copying;
use upc_text::{OutOfMemory, Place};
use upc_values::{LibraryCall, Scalar, Value};

/// A call that asks for many actions, with the shape of its elements, the number of its arguments and its place.
#[derive(Clone, Copy)]
pub(crate) struct NextCall {
    pub(crate) call: LibraryCall,
    pub(crate) shape: u32,
    pub(crate) arguments: usize,
    pub(crate) place: Place,
}

// Whether a call of the library asks for many actions.
fn walks(call: LibraryCall) -> bool
    ensures { result ≡ walks call }
{
    is_copying(call) || collective_number(call).is_some()
}

// The call of an instruction that asks for many actions, if it is one.
fn call_of(instr: &Instr) -> Option<NextCall>
    ensures instr { IfSome result (λ c. instr.now ≡ call_instr c) }
    ensures walks { IfSome result (λ c. walks c.call ≡ true) }
{
    match &instr.does {
        Operation::Thread(
            ThreadWork::Library {
                call,
                shape,
                arguments,
            },
        ) => {
            if walks(*call) {
                Some(NextCall {
                    call: *call,
                    shape: *shape,
                    arguments: *arguments,
                    place: instr.place,
                })
            } else {
                None
            }
        }
        _ => None,
    }
}

impl Progress {
    // Whether all threads may meet.
    fn may_meet(&self) -> bool
        ensures { result ≡ may_meet self.now }
    {
        !self.store.is_controlled() && !self.notified
    }

    // Whether a call that asks for many actions may begin.
    fn may_begin(&self, call: LibraryCall) -> bool
        ensures value { result ≡ may_begin call self.now }
        ensures meets { IsTrue result → (t : Task) → t.progress ≡ self.now → MayMeet call (task_seen t) }
    {
        is_copying(call) || self.may_meet()
    }

    // A memory call is tested.
    fn begin_copy(
        &self,
        next: &NextCall,
        args: &[Value],
        code: &Code,
        runner: &Runner,
    ) -> Result<Walk, Halt>
        requires held { AreHeld code.now.threads code.now.shapes args.now }
        requires copies { copies next.now.call ≡ true }
        ensures made { IfOk result (λ w. library_call code.now.threads code.now.shapes runner.now.number
            (shapes_in self.now.store) next.now.call next.now.shape args.now
            ≡ gives_zero (left_of code.now.shapes w)) }
        ensures values { IfOk result (λ w. WritesHeld code.now.threads code.now.shapes
            (left_of code.now.shapes w)) }
        ensures fails { IfErr result (λ e. FailsSo e (library_call code.now.threads code.now.shapes
            runner.now.number (shapes_in self.now.store) next.now.call next.now.shape args.now)
            next.now.place self.now.ticks) }
    {
        let spec = spec_of(next.call, args);
        let private = private_of(&self.store, next.call, &spec);
        code.keep();
        match Copying::make(runner.alloc, &spec, code.shapes(), private, code.threads()) {
            Ok(copying) => Ok(Walk::Copying(copying)),
            Err(e) => Err(self.refused(e, next.place)),
        }
    }

    // A call that asks for many actions is tested.
    fn begin(
        &self,
        next: &NextCall,
        args: &[Value],
        code: &Code,
        runner: &Runner,
    ) -> Result<Walk, Halt>
        requires held { AreHeld code.now.threads code.now.shapes args.now }
        requires walks { walks next.now.call ≡ true }
        ensures made { IfOk result (λ w. library_call code.now.threads code.now.shapes runner.now.number
            (shapes_in self.now.store) next.now.call next.now.shape args.now
            ≡ gives_zero (left_of code.now.shapes w)) }
        ensures values { IfOk result (λ w. WritesHeld code.now.threads code.now.shapes
            (left_of code.now.shapes w)) }
        ensures fails { IfErr result (λ e. FailsSo e (library_call code.now.threads code.now.shapes
            runner.now.number (shapes_in self.now.store) next.now.call next.now.shape args.now)
            next.now.place self.now.ticks) }
        ensures formed { UnlessWant result
            (is_formed code.now.shapes next.now.call next.now.shape args.now ≡ true) }
    {
        match collective_number(next.call) {
            Some(number) => self.begin_collective(next, number, args, code, runner),
            None => self.begin_copy(next, args, code, runner),
        }
    }
}

impl Task {
    // The call that comes next and asks for many actions, if one does and may begin.
    fn next_call(&self, code: &Code) -> Option<NextCall>
        ensures there { IfSome result (λ c.
            slice_get (function_at code.now.functions self.now.function) self.now.place ≡ Some (call_instr c)) }
        ensures walks { IfSome result (λ c. walks c.call ≡ true) }
        ensures meets { IfSome result (λ c. MayMeet c.call (task_seen self.now)) }
        ensures lands { IfSome result (λ c.
            self.now.place + 1 < length (function_at code.now.functions self.now.function)) }
        ensures small { length (function_at code.now.functions self.now.function) ≤ usize.MAX }
    {
        match code.fetch(self.function, self.place) {
            None => None,
            Some(instr) => {
                let next = call_of(instr)?;
                if self.progress.may_begin(next.call) {
                    Some(next)
                } else {
                    None
                }
            }
        }
    }

    // A call begins: its arguments are taken off.
    fn enter(&mut self, next: NextCall, code: &Code, runner: &Runner) -> Result<OpenCall, Halt>
        requires held { IsHolding code.now.threads code.now.shapes (task_seen self.old) }
        requires there { slice_get (function_at code.now.functions self.old.function) self.old.place
            ≡ Some (call_instr next) }
        requires walks { walks next.call ≡ true }
        requires meets { MayMeet next.call (task_seen self.old) }
        ensures enters { (given : List Reply)
            → Stands code.now runner.now.number runner.now.budget given (listed self.old.progress.reply)
            (task_seen self.old)
            → HasEntered code.now runner.now.number runner.now.budget given result self.new }
        ensures values { IfOk result (λ c. WritesHeld code.now.threads code.now.shapes
            (left_of code.now.shapes c.walk)) }
        ensures firm { IfErr result IsFirm }
        ensures taken { OnOk result (self.new
            ≡ record self.old { operands = drop next.arguments self.old.operands }) }
    {
        match self.progress.begin(&next, self.operands.youngest(next.arguments), code, runner) {
            Err(halt) => Err(halt),
            Ok(walk) => {
                self.operands.drop_youngest(next.arguments);
                Ok(OpenCall {
                    walk,
                    place: next.place,
                })
            }
        }
    }

    // The next instruction follows a call.
    fn leave(&mut self) -> Result<(), OutOfMemory>
        requires { self.old.place < usize.MAX }
        ensures { OnOk result (self.new ≡ record self.old {
          place = self.old.place + 1;
          operands = Value.Scalar (Scalar.Int (pos 0)) ∷ self.old.operands;
        }) }
    {
        self.operands.push(Value::Scalar(Scalar::Int(0)))?;
        self.place += 1;
        Ok(())
    }

    /// A call goes on, and stays open where it wants an action.
    pub(crate) fn go_inside(
        &mut self,
        mut call: OpenCall,
        under_way: &mut Option<OpenCall>,
        code: &Code,
        runner: &Runner,
    ) -> Result<(), Halt>
        requires held { IsHolding code.now.threads code.now.shapes (task_seen self.old) }
        requires going { IsGoingOn code.now.threads code.now.shapes (left_of code.now.shapes call.walk)
            (task_seen self.old) }
        requires in_time { self.old.progress.ticks < runner.now.budget }
        ensures goes { (given : List Reply)
            → StandsAt code.now runner.now.number runner.now.budget given (listed self.old.progress.reply)
            (Some (on_its_way call)) (task_seen self.old)
            → HasCome code.now runner.now.number runner.now.budget given result (the_call under_way.new) self.new }
        ensures closed { OnOk result (under_way.new ≡ under_way.old) }
        ensures waits { IfErr result (λ e. Waits e runner.now.budget code.now.threads code.now.shapes
            (the_call under_way.new) (task_seen self.new)) }
        ensures left { OnOk result
            (HasLeft code.now.threads code.now.shapes (task_seen self.old) (task_seen self.new)) }
    {
        match self
            .progress
            .walk_on(&mut call.walk, call.place, code, runner.alloc)
        {
            Ok(()) => {
                self.leave()?;
                Ok(())
            }
            Err(halt) => {
                *under_way = Some(call);
                Err(halt)
            }
        }
    }

    /// What comes next is done: an instruction, or a call of the library as far as it goes.
    pub(crate) fn turn(
        &mut self,
        under_way: &mut Option<OpenCall>,
        code: &Code,
        runner: &Runner,
    ) -> Result<(), Halt>
        requires in_time { self.old.progress.ticks < runner.now.budget }
        requires thread { runner.now.number < code.now.threads }
        requires held { IsHolding code.now.threads code.now.shapes (task_seen self.old) }
        requires closed { under_way.old ≡ None }
        ensures goes { (given : List Reply)
            → Stands code.now runner.now.number runner.now.budget given (listed self.old.progress.reply)
            (task_seen self.old)
            → HasCome code.now runner.now.number runner.now.budget given result (the_call under_way.new) self.new }
        ensures closed { OnOk result (under_way.new ≡ None) }
        ensures waits { IfErr result (λ e. Waits e runner.now.budget code.now.threads code.now.shapes
            (the_call under_way.new) (task_seen self.new)) }
        ensures advances { OnOk result
            (Advances code.now runner.now.budget (task_seen self.old) (task_seen self.new)) }
    {
        match self.next_call(code) {
            None => self.step(code, runner),
            Some(next) => match self.enter(next, code, runner) {
                Err(halt) => Err(halt),
                Ok(call) => self.go_inside(call, under_way, code, runner),
            },
        }
    }
}
