//! Instructions that call and return.

ghost use Rattle.std.specs.Prelude.{◌≡◌, ◌<◌, ◌≤◌, [], ℕ, length, List, IfErr, OnOk, Err};
ghost use Rattle.block_layout.specs.declared.kind.Shape.{Shape};
ghost use Rattle.upc_text.specs.declared.place.Place.{Place};
ghost use Rattle.upc_values.specs.declared.action.Action.{Action};
ghost use Rattle.thread_steps.specs.layer.Ranges.{IsNumber};
ghost use Rattle.thread_steps.specs.States.{Thread};
ghost use Rattle.thread_steps.specs.Values.{number_of};
ghost use Rattle.stack_code.specs.declared.instruction.CallWork.TheVariants as calls;
ghost use Rattle.stack_code.specs.declared.instruction.Operation.TheVariants as operation;
ghost use Rattle.stack_code.specs.layer.Codes.{function_at};
ghost use Rattle.stack_code.specs.layer.Depths.{LandsAt, call_effect};
ghost use Rattle.stack_code.specs.layer.Steps.{called, further, rest, top};
ghost use Rattle.stack_machine.specs.code.Jumps.{lefts};
ghost use Rattle.stack_machine.specs.code.Kept.{AreHeld, HoldsHeld, IsHolding};
ghost use Rattle.stack_machine.specs.code.Steps.{Advances};
ghost use Rattle.stack_machine.specs.code.Tasks.{spot_at, task_seen, Does, HasReturned, Remains};
ghost use Rattle.stack_machine.specs.code.Turns.{Arrived, IsFirm, state_seen};

use crate::calls::Task;
use crate::jumps::close_blocks;
use crate::runner::Runner;
use crate::wish::{Halt, Stop};
use stack_code::{CallWork, CellAccess, Code};
use thread_values::int_of;
use upc_text::Place;

impl Task {
    // The parameters get the values of the arguments.
    fn receive(&mut self, cells: &[Option<CellAccess>], place: Place) -> Result<(), Halt>
        requires { self.old.place < usize.MAX }
        ensures does { (τ : Thread) (before : List Action)
            → Arrived before
            (called τ (calls.Receive cells.now) place (spot_at self.old) self.old.given.items self.old.operands
            self.old.calls (state_seen before self.old.progress))
            result self.old.progress self.new.progress (task_seen self.new) }
        ensures firm { IfErr result IsFirm }
        ensures comes { OnOk result (task_seen self.new ≡ record (task_seen self.old) {
          at = further 1 (spot_at self.old);
          given = [];
          store = self.new.progress.store;
        }) }
        ensures held { (threads : ℕ) (shapes : List Shape) → HoldsHeld threads shapes self.old.progress.store
            → AreHeld threads shapes self.old.given.items
            → OnOk result (HoldsHeld threads shapes self.new.progress.store) }
    {
        match self.progress.receive(cells, &self.given, place) {
            Err(e) => Err(e),
            Ok(()) => {
                self.given.clear();
                self.place += 1;
                Ok(())
            }
        }
    }

    // Some blocks end, and then the call, which gives the youngest operand.
    #[tactic(auto, using(crate::proofs::Leaving::closes))]
    fn finish(&mut self, blocks: usize, place: Place) -> Result<(), Halt>
        requires { IsNumber (number_of (top self.old.operands)) }
        ensures does { (τ : Thread) (before : List Action)
            → Arrived before
            (called τ (calls.GiveBack blocks) place (spot_at self.old) self.old.given.items self.old.operands
            self.old.calls (state_seen before self.old.progress))
            result self.old.progress self.new.progress (task_seen self.new) }
        ensures firm { IfErr result IsFirm }
        ensures comes { OnOk result (HasReturned (top self.old.operands)
            (record (task_seen self.old) {
              operands = rest self.old.operands;
              store = lefts blocks self.old.progress.store;
            }) (task_seen self.new)) }
    {
        close_blocks(&mut self.progress.store, blocks);
        let v = self.operands.pop();
        self.give_back(v)
    }

    // The thread ends with the youngest operand.
    fn quit(&self) -> Halt
        requires { IsNumber (number_of (top self.now.operands)) }
        ensures does { (τ : Thread) (place : Place) (before : List Action)
            → Arrived before
            (called τ calls.Quit place (spot_at self.now) self.now.given.items self.now.operands self.now.calls
            (state_seen before self.now.progress))
            (Err result) self.now.progress self.now.progress (task_seen self.now) }
        ensures firm { IsFirm result }
    {
        Halt::Stops(
            Stop::Ended(int_of(self.operands.top())),
            self.progress.ticks,
        )
    }

    /// A call, or the way back from one.
    pub(crate) fn call_step(
        &mut self,
        work: &CallWork,
        place: Place,
        code: &Code,
        runner: &Runner,
    ) -> Result<(), Halt>
        requires in_time { self.old.progress.ticks < runner.now.budget }
        requires thread { runner.now.number < code.now.threads }
        requires held { IsHolding code.now.threads code.now.shapes (task_seen self.old) }
        requires lands { LandsAt self.old.place (length (function_at code.now.functions self.old.function))
            (call_effect work.now).leading }
        requires small { length (function_at code.now.functions self.old.function) ≤ usize.MAX }
        requires begins { (f : ℕ) → work.now ≡ calls.Begin f → (self.old.function ≡ 0) × (0 < f) }
        ensures does { Does code.now runner.now (operation.Call work.now) place result self.old self.new }
        ensures remains { Remains result self.old self.new }
        ensures advances { OnOk result
            (Advances code.now runner.now.budget (task_seen self.old) (task_seen self.new)) }
    {
        match work {
            CallWork::CallTo {
                function,
                arguments,
            } => self.call(*function, *arguments, place, runner.budget),
            CallWork::Begin(function) => self.begin(*function, place),
            CallWork::Receive(cells) => self.receive(cells.as_slice(), place),
            CallWork::GiveBack(blocks) => self.finish(*blocks, place),
            CallWork::Quit => Err(self.quit()),
        }
    }
}
