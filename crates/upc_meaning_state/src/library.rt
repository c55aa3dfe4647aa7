//! Calls of the library whose arguments have their values (C99 7.19.6.3; UPC 7.2, 7.3).

ghost use Rattle.std.specs.Prelude.{◌≡◌, IsTrue, All, IfOk, true};
ghost use Rattle.thread_steps.specs.Library as pure;
ghost use Rattle.thread_steps.specs.layer.Parts as parts;
ghost use Rattle.thread_steps.specs.layer.Ranges.{IsNumber};
ghost use Rattle.thread_steps.specs.Values.{number_of};
ghost use Rattle.upc_values.specs.LibraryCalls.{asks};
ghost use Rattle.thread_values.specs.layer.Asking.{expansion_of};
ghost use Rattle.upc_meaning_state.specs.layer.Came.{Came, state_seen};
ghost use Rattle.upc_meaning_state.specs.layer.Libraries.{expanded_to, met_then};
ghost use Rattle.upc_meaning_settings.specs.layer.Runners.{Fits, thread_seen};

use crate::progress::{Progress, Step};
use block_layout::SharedPtr;
use thread_values::{
    LibraryStep, collective_number, first_int, is_collective, is_copying, is_formed, library_step,
    library_value, printed, printed_count, reply_value,
};
use upc_meaning_settings::{Runner, is_numeric};
use upc_text::{OutOfMemory, Place};
use upc_values::{Action, LibraryCall, Scalar, ToldEnd, Value};

fn is_number(v: &Value) -> bool
    ensures { IsTrue result → IsNumber (number_of v.now) }
{
    is_numeric(v)
}

pub(crate) fn are_numeric(args: &[Value]) -> bool
    ensures { IsTrue result → All (λ v. IsNumber (number_of v)) args.now }
{
    args.iter().all(is_number)
}

fn is_exit(call: LibraryCall) -> bool
    ensures { result ≡ parts.is_exit call }
{
    matches!(call, LibraryCall::GlobalExit)
}

impl<'r> Progress<'r> {
    /// A printf (C99 7.19.6.3).
    #[tactic(auto, unfolding(thread_steps::specs::Library::print))]
    pub(crate) fn print(
        &mut self,
        runner: Runner<'_>,
        format: &[u8],
        args: &[Value],
    ) -> Result<Step<Value>, OutOfMemory>
        ensures { IfOk result (λ s. Came (pure.print (thread_seen runner.entry) format.now args.now
            (state_seen self.old)) s self.new) }
    {
        if !are_numeric(args) {
            return Err(OutOfMemory);
        }
        let text = printed(runner.alloc, format, args)?;
        let count = printed_count(&text);
        match self.ask(runner, None, Action::Print(text))? {
            Step::Ends(end) => Ok(Step::Ends(end)),
            Step::Gives(_) => Ok(Step::Gives(count)),
        }
    }

    // One action, whose reply gives the value.
    #[tactic(auto, using(crate::proofs::Libraries::asked_gives, crate::proofs::Libraries::asked_fails, crate::proofs::Libraries::asked_ends))]
    fn ask_value(
        &mut self,
        runner: Runner<'_>,
        place: Place,
        action: Action,
    ) -> Result<Step<Value>, OutOfMemory>
        ensures { IfOk result (λ s. Came (expanded_to (thread_seen runner.entry) place (asks action)
            (state_seen self.old)) s self.new) }
    {
        match self.ask(runner, None, action)? {
            Step::Ends(end) => Ok(Step::Ends(end)),
            Step::Gives(reply) => match reply_value(&reply) {
                Err(code) => Ok(Step::Ends(ToldEnd::Fault(code, place))),
                Ok(v) => Ok(Step::Gives(v)),
            },
        }
    }

    // A step of a call.
    #[tactic(auto, unfolding(thread_steps::specs::Accesses::library_steps))]
    fn take_step(
        &mut self,
        runner: Runner<'_>,
        place: Place,
        step: LibraryStep,
    ) -> Result<Step<Value>, OutOfMemory>
        ensures { IfOk result (λ s. Came (expanded_to (thread_seen runner.entry) place (expansion_of step)
            (state_seen self.old)) s self.new) }
    {
        match step {
            LibraryStep::Nothing => Ok(Step::Gives(Value::Scalar(Scalar::Int(0)))),
            LibraryStep::Null => Ok(Step::Gives(Value::Scalar(Scalar::Shared(SharedPtr::NULL)))),
            LibraryStep::Fails(error) => Ok(Step::Ends(ToldEnd::Fault(error, place))),
            LibraryStep::Asks(action) => self.ask_value(runner, place, action),
        }
    }

    // Such a step where all threads may have to meet.
    fn met_step(
        &mut self,
        runner: Runner<'_>,
        is_collective: bool,
        place: Place,
        step: LibraryStep,
    ) -> Result<Step<Value>, OutOfMemory>
        ensures { IfOk result (λ s. Came (met_then is_collective (thread_seen runner.entry) place (expansion_of step)
            (state_seen self.old)) s self.new) }
    {
        if !is_collective {
            return self.take_step(runner, place, step);
        }
        match self.meet(runner, place) {
            Step::Ends(end) => Ok(Step::Ends(end)),
            Step::Gives(()) => self.take_step(runner, place, step),
        }
    }

    // upc_global_exit.
    #[tactic(auto, using(crate::proofs::AtOnce::exit_is))]
    fn exit_call(
        &mut self,
        runner: Runner<'_>,
        place: Place,
        call: LibraryCall,
        shape: u32,
        args: &[Value],
    ) -> Result<Step<Value>, OutOfMemory>
        requires { parts.is_exit call ≡ true }
        ensures { IfOk result (λ s. Came (pure.library (thread_seen runner.entry) call shape place args.now
            (state_seen self.old)) s self.new) }
    {
        match first_int(args) {
            None => Err(OutOfMemory),
            Some(value) => self.exit(runner, value),
        }
    }

    // A call that asks for one action at most.
    #[tactic(auto, using(thread_values::proofs::Asking::unformed))]
    fn asking_call(
        &mut self,
        runner: Runner<'_>,
        place: Place,
        call: LibraryCall,
        shape: u32,
        args: &[Value],
    ) -> Result<Step<Value>, OutOfMemory>
        requires { Fits runner }
        ensures { IfOk result (λ s. Came (pure.library (thread_seen runner.entry) call shape place args.now
            (state_seen self.old)) s self.new) }
    {
        if !are_numeric(args) {
            return Err(OutOfMemory);
        }
        let step = library_step(
            runner.alloc,
            runner.number,
            runner.shapes,
            call,
            shape,
            args,
        )?;
        match step {
            None => Err(OutOfMemory),
            Some(step) => {
                if !is_formed(runner.alloc, runner.shapes, call, shape, args)? {
                    return Ok(Step::Gives(Value::Scalar(Scalar::Int(0))));
                }
                self.met_step(runner, is_collective(call), place, step)
            }
        }
    }

    // A call that gives its value at once, or asks for one action at most.
    fn brief_call(
        &mut self,
        runner: Runner<'_>,
        place: Place,
        call: LibraryCall,
        shape: u32,
        args: &[Value],
    ) -> Result<Step<Value>, OutOfMemory>
        requires { Fits runner }
        ensures { IfOk result (λ s. Came (pure.library (thread_seen runner.entry) call shape place args.now
            (state_seen self.old)) s self.new) }
    {
        match library_value(runner.threads, call, args) {
            None => self.asking_call(runner, place, call, shape, args),
            Some(answer) => match answer {
                Err(code) => Ok(Step::Ends(ToldEnd::Fault(code, place))),
                Ok(v) => Ok(Step::Gives(v)),
            },
        }
    }

    /// A call of the library other than printf.
    pub(crate) fn library(
        &mut self,
        runner: Runner<'_>,
        place: Place,
        call: LibraryCall,
        shape: u32,
        args: &[Value],
    ) -> Result<Step<Value>, OutOfMemory>
        requires { Fits runner }
        ensures { IfOk result (λ s. Came (pure.library (thread_seen runner.entry) call shape place args.now
            (state_seen self.old)) s self.new) }
    {
        if is_exit(call) {
            return self.exit_call(runner, place, call, shape, args);
        }
        if is_copying(call) {
            return self.memory_call(runner, place, call, shape, args);
        }
        match collective_number(call) {
            None => self.brief_call(runner, place, call, shape, args),
            Some(number) => self.collective_call(runner, place, call, number, shape, args),
        }
    }
}
