//! Calls of the library that ask for one action at most.

ghost use Rattle.std.specs.Prelude.{◌≡◌, ℕ, true, List, Err, IfOk, OnOk};
ghost use Rattle.upc_values.specs.Calls.{call_of};
ghost use Rattle.upc_values.specs.declared.scalar.Value.{Value};
ghost use Rattle.collectives.specs.layer.Arguments.{copies_or_reduces};
ghost use Rattle.stack_machine.specs.code.Calls.{UnlessWant};
ghost use Rattle.upc_values.specs.declared.action.Action.{Action};
ghost use Rattle.upc_values.specs.LibraryCalls.{asks};
ghost use Rattle.thread_steps.specs.Actions as actions;
ghost use Rattle.thread_steps.specs.Library as pure;
ghost use Rattle.thread_steps.specs.layer.Ranges.{IsHeld};
ghost use Rattle.thread_steps.specs.States.{Thread, Val};
ghost use Rattle.stack_code.specs.layer.Codes.{thread_of};
ghost use Rattle.thread_values.specs.layer.Asking.{expansion_of};
ghost use Rattle.stack_machine.specs.code.Kept.{AreHeld};
ghost use Rattle.stack_machine.specs.code.Libraries.{expanded_to, met_then};
ghost use Rattle.stack_machine.specs.code.Turns.{Came, state_seen};

use crate::progress::Progress;
use crate::runner::Runner;
use crate::wish::Halt;
use block_layout::SharedPtr;
use block_layout::run_error::{BARRIER_IN_FORALL, PHASE_ORDER};
use collectives::may_meet;
use stack_code::Code;
use thread_values::{
    LibraryStep, collective_number, is_collective, is_formed, library_step, reply_fits,
    reply_value, scalars_met,
};
use upc_text::Place;
use upc_values::{Action, LibraryCall, Scalar, Value};

impl Progress {
    // A collective call may begin.
    #[tactic(auto, unfolding(thread_steps::specs::Actions::meet))]
    fn meet(&self, place: Place) -> Result<(), Halt>
        ensures does { (τ : Thread) (before : List Action)
            → Came before (actions.meet τ place (state_seen before self.now)) result self.now self.now }
        ensures exact { (τ : Thread) (before : List Action)
            → OnOk result (actions.meet τ place (state_seen before self.now)
            ≡ Val tt (state_seen before self.now)) }
    {
        if self.store.is_controlled() {
            return Err(self.fault(BARRIER_IN_FORALL, place));
        }
        if self.notified {
            return Err(self.fault(PHASE_ORDER, place));
        }
        Ok(())
    }

    // One action, whose reply gives the value.
    #[tactic(auto, unfolding(thread_steps::specs::Accesses::library_steps, thread_steps::specs::Actions::ask))]
    fn ask(&mut self, action: Action, place: Place, code: &Code) -> Result<Value, Halt>
        ensures does { (thread budget : ℕ) (before : List Action)
            → Came before
            (expanded_to (thread_of code.now thread budget) place (asks action) (state_seen before self.old))
            result self.old self.new }
        ensures value { IfOk result (IsHeld code.now.threads code.now.shapes) }
        ensures kept { OnOk result (self.new ≡ record self.old { reply = self.new.reply }) }
    {
        match self.reply.take() {
            None => Err(Halt::Asks(action, self.ticks)),
            Some(reply) => {
                if !reply_fits(code.threads(), code.shapes(), &action, &reply) {
                    return Err(Halt::Memory);
                }
                match reply_value(&reply) {
                    Err(error) => Err(self.fault(error, place)),
                    Ok(v) => Ok(v),
                }
            }
        }
    }

    // A step of a call.
    #[tactic(auto, unfolding(thread_steps::specs::Accesses::library_steps))]
    fn take_step(&mut self, step: LibraryStep, place: Place, code: &Code) -> Result<Value, Halt>
        ensures does { (thread budget : ℕ) (before : List Action)
            → Came before
            (expanded_to (thread_of code.now thread budget) place (expansion_of step) (state_seen before self.old))
            result self.old self.new }
        ensures value { IfOk result (IsHeld code.now.threads code.now.shapes) }
        ensures kept { OnOk result (self.new ≡ record self.old { reply = self.new.reply }) }
    {
        match step {
            LibraryStep::Nothing => Ok(Value::Scalar(Scalar::Int(0))),
            LibraryStep::Null => Ok(Value::Scalar(Scalar::Shared(SharedPtr::NULL))),
            LibraryStep::Fails(error) => Err(self.fault(error, place)),
            LibraryStep::Asks(action) => self.ask(action, place, code),
        }
    }

    // Such a step where all threads may have to meet.
    fn met_step(
        &mut self,
        is_collective: bool,
        step: LibraryStep,
        place: Place,
        code: &Code,
    ) -> Result<Value, Halt>
        ensures does { (thread budget : ℕ) (before : List Action)
            → Came before
            (met_then is_collective (thread_of code.now thread budget) place (expansion_of step)
            (state_seen before self.old))
            result self.old self.new }
        ensures value { IfOk result (IsHeld code.now.threads code.now.shapes) }
        ensures kept { OnOk result (self.new ≡ record self.old { reply = self.new.reply }) }
    {
        if !is_collective {
            return self.take_step(step, place, code);
        }
        match self.meet(place) {
            Err(e) => Err(e),
            Ok(()) => self.take_step(step, place, code),
        }
    }

    // How a collective call ends where all threads may not meet.
    fn not_met(&self, number: u8, met: &[Scalar], place: Place) -> Halt
        ensures does { (τ : Thread) (before : List Action)
            → Came before (actions.meet τ place (state_seen before self.now)) (Err result) self.now self.now }
        ensures formed { UnlessWant {A = Value} (Err result) (copies_or_reduces (call_of number met.now) ≡ true) }
    {
        if !may_meet(number, met) {
            return Halt::Memory;
        }
        match self.meet(place) {
            Err(e) => e,
            Ok(()) => Halt::Memory,
        }
    }

    // A call that has not begun though it asks for many actions: all threads meet in it, and here they may not.
    fn not_begun(
        &self,
        call: LibraryCall,
        shape: u32,
        args: &[Value],
        place: Place,
        code: &Code,
        runner: &Runner,
    ) -> Halt
        ensures { (before : List Action)
            → Came before
            (pure.library (thread_of code.now runner.now.number runner.now.budget) call shape place args.now
            (state_seen before self.now))
            (Err result) self.now self.now }
    {
        match collective_number(call) {
            None => Halt::Memory,
            Some(number) => match scalars_met(runner.alloc, call, args) {
                Err(_) => Halt::Memory,
                Ok(met) => self.not_met(number, met.as_slice(), place),
            },
        }
    }

    /// A call that asks for one action at most. One that asks for many begins elsewhere, and comes here only where it
    /// may not begin.
    pub(crate) fn library(
        &mut self,
        call: LibraryCall,
        shape: u32,
        args: &[Value],
        place: Place,
        code: &Code,
        runner: &Runner,
    ) -> Result<Value, Halt>
        requires { AreHeld code.now.threads code.now.shapes args.now }
        ensures does { (before : List Action)
            → Came before
            (pure.library (thread_of code.now runner.now.number runner.now.budget) call shape place args.now
            (state_seen before self.old))
            result self.old self.new }
        ensures value { IfOk result (IsHeld code.now.threads code.now.shapes) }
        ensures kept { OnOk result (self.new ≡ record self.old { reply = self.new.reply }) }
    {
        let step = library_step(
            runner.alloc,
            runner.number,
            code.shapes(),
            call,
            shape,
            args,
        )?;
        match step {
            None => Err(self.not_begun(call, shape, args, place, code, runner)),
            Some(step) => {
                if !is_formed(runner.alloc, code.shapes(), call, shape, args)? {
                    return Ok(Value::Scalar(Scalar::Int(0)));
                }
                self.met_step(is_collective(call), step, place, code)
            }
        }
    }
}
