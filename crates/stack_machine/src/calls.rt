//! Calls (C99 6.5.2.2).

ghost use Rattle.std.specs.Prelude.{◌≡◌, ◌+◌, ◌<◌, ◌∷◌, [], List, IfErr, OnOk};
ghost use Rattle.upc_values.specs.declared.action.Action.{Action};
ghost use Rattle.thread_steps.specs.layer.Ranges.{IsNumber};
ghost use Rattle.thread_steps.specs.States.{Thread};
ghost use Rattle.thread_steps.specs.Values.{number_of};
ghost use Rattle.stack_code.specs.declared.instruction.CallWork.TheVariants as work;
ghost use Rattle.stack_code.specs.layer.Steps.{called, given_back};
ghost use Rattle.stack_machine.specs.code.Tasks.{spot_at, task_seen, called_body, begun_body, HasReturned, Remains};
ghost use Rattle.stack_machine.specs.code.Turns.{Arrived, IsFirm, state_seen};

use crate::jumps::close_blocks;
use crate::progress::Progress;
use crate::wish::{Halt, Stop};
use stack_machine_values::stacks::{Operands, Spot, Spots};
use thread_values::int_of;
use upc_text::{OutOfMemory, Place};
use upc_values::Value;

/// Where a thread stands: the place of its next instruction, the arguments that the youngest call was given and has
/// not received yet, its operands, where its calls lead back, and the rest.
#[derive(Drop)]
pub(crate) struct Task {
    pub(crate) function: usize,
    pub(crate) place: usize,
    pub(crate) given: Vec<Value>,
    pub(crate) operands: Operands,
    pub(crate) calls: Spots,
    pub(crate) progress: Progress,
}

impl Task {
    // The spot after this instruction is where a call leads back to.
    fn push_call(&mut self, function: usize) -> Result<(), OutOfMemory>
        requires { self.old.place < usize.MAX }
        ensures { OnOk result (self.new ≡ record self.old {
          function = function;
          place = 0;
          calls = record { function = self.old.function; place = self.old.place + 1 } ∷ self.old.calls;
        }) }
    {
        self.calls.push(Spot {
            function: self.function,
            place: self.place + 1,
        })?;
        self.function = function;
        self.place = 0;
        Ok(())
    }

    /// A call of a function with the youngest operands as arguments.
    pub(crate) fn call(
        &mut self,
        function: usize,
        arguments: usize,
        place: Place,
        budget: u64,
    ) -> Result<(), Halt>
        requires in_time { self.old.progress.ticks < budget }
        requires inside { self.old.place < usize.MAX }
        ensures does { (τ : Thread) → τ.budget ≡ budget → (before : List Action)
            → Arrived before
            (called τ (work.CallTo function arguments) place (spot_at self.old) self.old.given.items
            self.old.operands self.old.calls (state_seen before self.old.progress))
            result self.old.progress self.new.progress (task_seen self.new) }
        ensures remains { Remains result self.old self.new }
        ensures comes { OnOk result (task_seen self.new ≡ called_body function arguments (task_seen self.old)) }
        ensures in_time { OnOk result (self.new.progress.ticks < budget) }
    {
        match self.progress.tick(budget) {
            Err(e) => Err(e),
            Ok(()) => match self.progress.begin_call(place) {
                Err(e) => Err(e),
                Ok(()) => {
                    self.given = self.operands.split_youngest(arguments)?;
                    self.push_call(function)?;
                    Ok(())
                }
            },
        }
    }

    /// A call of a function without arguments and without a tick.
    pub(crate) fn begin(&mut self, function: usize, place: Place) -> Result<(), Halt>
        requires { self.old.place < usize.MAX }
        ensures does { (τ : Thread) (before : List Action)
            → Arrived before
            (called τ (work.Begin function) place (spot_at self.old) self.old.given.items
            self.old.operands self.old.calls (state_seen before self.old.progress))
            result self.old.progress self.new.progress (task_seen self.new) }
        ensures firm { IfErr result IsFirm }
        ensures comes { OnOk result (task_seen self.new ≡ begun_body function (task_seen self.old)) }
    {
        match self.progress.begin_call(place) {
            Err(e) => Err(e),
            Ok(()) => {
                self.given.clear();
                self.push_call(function)?;
                Ok(())
            }
        }
    }

    /// Gives a value back from the youngest call; where none is active the thread ends with it.
    #[tactic(auto, unfolding(thread_steps::specs::Blocks::end_call))]
    pub(crate) fn give_back(&mut self, v: Value) -> Result<(), Halt>
        requires { IsNumber (number_of v) }
        ensures does { (before : List Action)
            → Arrived before
            (given_back v self.old.operands self.old.calls (state_seen before self.old.progress))
            result self.old.progress self.new.progress (task_seen self.new) }
        ensures firm { IfErr result IsFirm }
        ensures comes { OnOk result (HasReturned v (task_seen self.old) (task_seen self.new)) }
    {
        match self.calls.pop() {
            None => Err(Halt::Stops(Stop::Ended(int_of(&v)), self.progress.ticks)),
            Some(spot) => {
                self.progress.store.pop_call();
                self.given.clear();
                self.operands.push(v)?;
                self.function = spot.function;
                self.place = spot.place;
                Ok(())
            }
        }
    }
}
