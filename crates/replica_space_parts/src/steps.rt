//! One thread's part in a round.

ghost use Rattle.std.specs.Prelude.{◌≡◌, None, IfOk};
ghost use Rattle.turn_cell.specs.layer.Seats.{id_of, started};
ghost use Rattle.upc_task.specs.layer.Sources.{Outcomes};
ghost use Rattle.replica_space_parts.specs.layer.Parts.{begun_of};
ghost use Rattle.replica_space_parts.specs.layer.Seated.{IsSeated, Stepped, Took, Did};

use crate::part::Part;
use crate::seated::Seated;
use stack_code::Code;
use std::sync::Wait;
use turn_cell::TurnCell;
use upc_task::Pause;
use upc_text::{Gate, OutOfMemory};

// Private work, and then a step in a turn.
fn step_once<R: Wait>(
    rt: &R,
    seated: &mut Seated,
    code: &Code,
    cell: &TurnCell<Part>,
) -> Result<Pause, OutOfMemory>
    requires kept { (f : Outcomes) × IsSeated (id_of cell.now) (begun_of (started cell.now)) code.now f seated.old }
    requires open { seated.old.worker.recorder.«end» ≡ None }
    ensures { IfOk result (λ p.
        Stepped (id_of cell.now) (begun_of (started cell.now)) code.now p seated.old seated.new) }
{
    seated.worker.work(code)?;
    let mut turn = cell.enter(rt, &mut seated.seat);
    let pause = seated.worker.step(&mut turn.world.run);
    let _len = turn.world.run.len();
    cell.leave(&mut seated.seat, turn);
    pause
}

// A thread goes on to a Beat, a Stall or its end.
fn take_part<R: Wait>(
    rt: &R,
    seated: &mut Seated,
    code: &Code,
    cell: &TurnCell<Part>,
) -> Result<(), OutOfMemory>
    requires kept { (f : Outcomes) × IsSeated (id_of cell.now) (begun_of (started cell.now)) code.now f seated.old }
    requires open { seated.old.worker.recorder.«end» ≡ None }
    ensures { IfOk result (λ _. Took (id_of cell.now) (begun_of (started cell.now)) code.now seated.old seated.new) }
{
    for _ in rt.forever() {
        let pause = step_once(rt, seated, code, cell)?;
        match pause {
            Pause::Going => {}
            Pause::Beat => return Ok(()),
            Pause::Stalled => return Ok(()),
            Pause::Finished => return Ok(()),
        }
    }
    unreachable!()
}

/// A thread's part in a round, if it has no end: after the call of the gate it goes on to a Beat, a Stall or its end.
/// Want of memory is noted at the worker, which is then only dropped.
pub fn play<R: Wait, G: Gate>(
    rt: &R,
    seated: &mut Seated,
    code: &Code,
    cell: &TurnCell<Part>,
    gate: &G,
    number: u64,
)
    requires { (f : Outcomes) × IsSeated (id_of cell.now) (begun_of (started cell.now)) code.now f seated.old }
    ensures { Did (id_of cell.now) (begun_of (started cell.now)) code.now seated.old seated.new }
{
    if seated.worker.has_ended() {
        return;
    }
    gate.round_begins(seated.worker.thread(), number);
    match take_part(rt, seated, code, cell) {
        Ok(_) => {}
        Err(_) => seated.failed = true,
    }
}
