//! Collective calls that ask for many actions: they begin (UPC 7.3).

ghost use Rattle.std.specs.Prelude.{◌≡◌, IfOk, IfErr, Some, true};
ghost use Rattle.thread_steps.specs.Library.{is_formed};
ghost use Rattle.upc_values.specs.LibraryCalls.{library_call, gives_zero};
ghost use Rattle.thread_values.specs.layer.Collectives.{collective_number};
ghost use Rattle.thread_values.specs.layer.Copies.{shapes_in};
ghost use Rattle.stack_machine.specs.code.Calls.{left_of, FailsSo, UnlessWant, WritesHeld};

use crate::memory_calls::NextCall;
use crate::open_calls::Walk;
use crate::progress::Progress;
use crate::runner::Runner;
use crate::wish::Halt;
use collectives::{Collective, may_meet};
use stack_code::Code;
use thread_values::scalars_met;
use upc_values::Value;

impl Progress {
    /// A collective call is tested; where its arguments are not of its parameters' types the answer is want of memory.
    pub(crate) fn begin_collective(
        &self,
        next: &NextCall,
        number: u8,
        args: &[Value],
        code: &Code,
        runner: &Runner,
    ) -> Result<Walk, Halt>
        requires { collective_number next.now.call ≡ Some number }
        ensures made { IfOk result (λ w. library_call code.now.threads code.now.shapes runner.now.number
            (shapes_in self.now.store) next.now.call next.now.shape args.now
            ≡ gives_zero (left_of code.now.shapes w)) }
        ensures values { IfOk result (λ w. WritesHeld code.now.threads code.now.shapes
            (left_of code.now.shapes w)) }
        ensures fails { IfErr result (λ e. FailsSo e (library_call code.now.threads code.now.shapes
            runner.now.number (shapes_in self.now.store) next.now.call next.now.shape args.now)
            next.now.place self.now.ticks) }
        ensures formed { UnlessWant result
            (is_formed code.now.shapes next.now.call next.now.shape args.now ≡ true) }
    {
        let met = scalars_met(runner.alloc, next.call, args)?;
        let scalars = met.as_slice();
        if !may_meet(number, scalars) {
            return Err(Halt::Memory);
        }
        match Collective::make(runner.alloc, number, scalars, runner.number, code.threads()) {
            Ok(collective) => Ok(Walk::Collective(collective)),
            Err(e) => Err(self.refused(e, next.place)),
        }
    }
}
