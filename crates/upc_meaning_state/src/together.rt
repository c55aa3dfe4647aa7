//! Collective calls that ask for many actions, whose arguments have their values (UPC 7.3).

ghost use Rattle.std.specs.Prelude.{◌≡◌, IfOk, IfSome, Some, true};
ghost use Rattle.collectives.specs.layer.Walks.{rest};
ghost use Rattle.upc_values.specs.Expansions.{collective};
ghost use Rattle.upc_values.specs.LibraryCalls.{gives_zero};
ghost use Rattle.thread_steps.specs.Library as pure;
ghost use Rattle.thread_values.specs.layer.Collectives.{collective_number};
ghost use Rattle.upc_meaning_state.specs.code.Walking.{IsAnsweredOrOver, IsTaken};
ghost use Rattle.upc_meaning_state.specs.layer.Came.{Came, state_seen};
ghost use Rattle.upc_meaning_state.specs.layer.Libraries.{expanded_to, met_then};
ghost use Rattle.upc_meaning_settings.specs.layer.Runners.{Fits, thread_seen};

use crate::progress::{Progress, Step};
use collectives::{CollWish, Collective, may_meet};
use thread_values::scalars_met;
use upc_meaning_settings::Runner;
use upc_text::{OutOfMemory, Place};
use upc_values::{LibraryCall, Refused, Reply, Scalar, ToldEnd, Value};

impl<'r> Progress<'r> {
    // What the call asks for is answered by the next reply, if it asks for anything.
    fn answer_together(
        &mut self,
        runner: Runner<'_>,
        place: Place,
        call: &Collective,
    ) -> Result<Option<Step<Reply>>, OutOfMemory>
        ensures goes { IfOk result (λ s. IsAnsweredOrOver (thread_seen runner.entry) place
            (rest runner.entry.shapes.now call.now) (state_seen self.old) s self.new) }
        ensures taken { IfOk result (λ s. IfSome s (λ t. IsTaken self.old.replies.now t self.new)) }
    {
        match call.wish(runner.alloc) {
            Err(_) => Err(OutOfMemory),
            Ok(CollWish::Finished) => Ok(None),
            Ok(CollWish::Act(action)) => {
                let step = self.ask(runner, call.reads(), action)?;
                Ok(Some(step))
            }
        }
    }

    // The call goes on, to its end.
    fn go_together(
        &mut self,
        runner: Runner<'_>,
        place: Place,
        call: &mut Collective,
    ) -> Result<Step<Value>, OutOfMemory>
        ensures { IfOk result (λ s. Came (expanded_to (thread_seen runner.entry) place
            (gives_zero (rest runner.entry.shapes.now call.old)) (state_seen self.old)) s self.new) }
    {
        loop {
            match self.answer_together(runner, place, call)? {
                None => return Ok(Step::Gives(Value::Scalar(Scalar::Int(0)))),
                Some(Step::Ends(end)) => return Ok(Step::Ends(end)),
                Some(Step::Gives(reply)) => match call.take(runner.alloc, &reply, runner.shapes) {
                    Ok(()) => {}
                    Err(Refused::Memory) => return Err(OutOfMemory),
                    Err(Refused::Error(code)) => return Ok(Step::Ends(ToldEnd::Fault(code, place))),
                },
            }
        }
    }

    // The call with this number, in which all threads meet with these arguments.
    fn together(
        &mut self,
        runner: Runner<'_>,
        place: Place,
        number: u8,
        met: &[Scalar],
    ) -> Result<Step<Value>, OutOfMemory>
        requires { Fits runner }
        ensures { IfOk result (λ s. Came (expanded_to (thread_seen runner.entry) place
            (gives_zero (collective runner.entry.threads runner.entry.shapes.now runner.entry.number number met.now))
            (state_seen self.old)) s self.new) }
    {
        match Collective::make(runner.alloc, number, met, runner.number, runner.threads) {
            Err(Refused::Memory) => Err(OutOfMemory),
            Err(Refused::Error(code)) => Ok(Step::Ends(ToldEnd::Fault(code, place))),
            Ok(mut collective) => self.go_together(runner, place, &mut collective),
        }
    }

    // That call, where the thread may meet.
    fn met_together(
        &mut self,
        runner: Runner<'_>,
        place: Place,
        number: u8,
        met: &[Scalar],
    ) -> Result<Step<Value>, OutOfMemory>
        requires { Fits runner }
        ensures { IfOk result (λ s. Came (met_then true (thread_seen runner.entry) place
            (gives_zero (collective runner.entry.threads runner.entry.shapes.now runner.entry.number number met.now))
            (state_seen self.old)) s self.new) }
    {
        match self.meet(runner, place) {
            Step::Ends(end) => Ok(Step::Ends(end)),
            Step::Gives(()) => self.together(runner, place, number, met),
        }
    }

    /// A collective call that asks for many actions; where its arguments are not of its parameters' types the answer is
    /// want of memory.
    pub(crate) fn collective_call(
        &mut self,
        runner: Runner<'_>,
        place: Place,
        call: LibraryCall,
        number: u8,
        shape: u32,
        args: &[Value],
    ) -> Result<Step<Value>, OutOfMemory>
        requires fits { Fits runner }
        requires number { collective_number call ≡ Some number }
        ensures { IfOk result (λ s. Came (pure.library (thread_seen runner.entry) call shape place args.now
            (state_seen self.old)) s self.new) }
    {
        let met = scalars_met(runner.alloc, call, args)?;
        let scalars = met.as_slice();
        if !may_meet(number, scalars) {
            return Err(OutOfMemory);
        }
        self.met_together(runner, place, number, scalars)
    }
}
