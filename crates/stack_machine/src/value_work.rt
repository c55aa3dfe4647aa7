//! Values made of values.

ghost use Rattle.std.specs.Prelude.{ℕ, List, IfErr, OnOk};
ghost use Rattle.upc_values.specs.declared.action.Action.{Action};
ghost use Rattle.upc_values.specs.declared.scalar.Value.{Value};
ghost use Rattle.stack_code.specs.layer.Codes.{thread_of};
ghost use Rattle.stack_code.specs.layer.Kept.{ValuesFit};
ghost use Rattle.stack_code.specs.layer.Steps.{At, Spot, made, top, second, third};
ghost use Rattle.stack_machine.specs.code.Kept.{AreHeld};
ghost use Rattle.stack_machine.specs.code.Turns.{Arrived, IsFirm, body_seen, state_seen};

use crate::progress::Progress;
use crate::wish::Halt;
use stack_code::{Code, ValueWork};
use stack_machine_values::stacks::Operands;
use stack_machine_values::worths::{taken, worth};
use upc_text::Place;
use upc_values::Value;

/// Makes a value of the youngest operands, which it takes.
pub(crate) fn value_work(
    operands: &mut Operands,
    progress: &Progress,
    work: &ValueWork,
    place: Place,
    code: &Code,
    me: u32,
) -> Result<(), Halt>
    requires fits { ValuesFit work.now }
    requires held { AreHeld code.now.threads code.now.shapes operands.old }
    ensures does { (budget : ℕ) (there : Spot) (given : List Value) (calls : List Spot) (before : List Action)
        → Arrived before
        (made (thread_of code.now me budget) work.now place operands.old (λ vs. At there given vs calls)
        (state_seen before progress.now))
        result progress.now progress.now (body_seen there given operands.new calls progress.now) }
    ensures firm { IfErr result IsFirm }
    ensures held { OnOk result (AreHeld code.now.threads code.now.shapes operands.new) }
{
    match worth(
        work,
        operands.third(),
        operands.second(),
        operands.top(),
        code,
        me,
    ) {
        Err(error) => Err(progress.fault(error, place)),
        Ok(v) => {
            operands.drop_youngest(taken(work));
            operands.push(v)?;
            Ok(())
        }
    }
}
