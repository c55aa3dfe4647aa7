//! One thread's part in a round.

ghost use Rattle.std.specs.Prelude.{◌≡◌, None, IfOk};
ghost use Rattle.turn_cell.specs.layer.Seats.{id_of, started};
ghost use Rattle.upc_task.specs.layer.Sources.{Outcomes};
ghost use Rattle.upc_task.specs.layer.Seated.{IsTask, IsInOrder};
ghost use Rattle.upc_rounds_teams.specs.layer.Places.{Took, Did, RestsWith};

use memory_history::World;
use stack_code::Code;
use std::alloc::AllocError as OutOfMemory;
use std::sync::Wait;
use turn_cell::TurnCell;
use upc_rounds_teams::place::Place;
use upc_task::{Pause, Task};
use upc_text::Gate;

/// A thread's part in a round: after the call of the gate it goes on to a Beat, a Stall or its end, and answers which.
/// After want of memory the task is only dropped; it is in order, as after any other answer: its turn is left, what it
/// has added is a front of what its record emits, and the list that it has seen is lawful.
pub fn round<R: Wait, G: Gate>(
    rt: &R,
    task: &mut Task,
    code: &Code,
    cell: &TurnCell<World>,
    gate: &G,
    number: u64,
) -> Result<Pause, OutOfMemory>
    requires kept { (f : Outcomes) × IsTask (id_of cell.now) (started cell.now).0 code.now f task.old }
    requires open { task.old.worker.«end» ≡ None }
    ensures took { IfOk result (λ _. Took (id_of cell.now) (started cell.now).0 code.now task.old task.new) }
    ensures rests { IfOk result (λ p. RestsWith p (started cell.now).0 task.new) }
    ensures order { IsInOrder (started cell.now).0 task.new }
{
    gate.round_begins(task.thread(), number);
    for _ in rt.forever() {
        task.work(code)?;
        let pause = task.step(rt, code, cell)?;
        match pause {
            Pause::Going => {}
            Pause::Beat => return Ok(Pause::Beat),
            Pause::Stalled => return Ok(Pause::Stalled),
            Pause::Finished => return Ok(Pause::Finished),
        }
    }
    unreachable!()
}

/// The part of a thread that has no end. Want of memory is kept at its place.
pub(crate) fn play<R: Wait, G: Gate>(
    rt: &R,
    place: &mut Place,
    code: &Code,
    cell: &TurnCell<World>,
    gate: &G,
    number: u64,
)
    requires kept { (f : Outcomes) × IsTask (id_of cell.now) (started cell.now).0 code.now f place.old.task }
    ensures did { Did (id_of cell.now) (started cell.now).0 code.now place.old place.new }
{
    if place.task.has_ended() {
        return;
    }
    match round(rt, &mut place.task, code, cell, gate, number) {
        Ok(_) => {}
        Err(_) => place.failed = true,
    }
}
