//! Tasks that go on one after another, on one thread of the machine.

ghost use Rattle.std.specs.Prelude.{ℕ, ◌≡◌, ◌<◌, true, false, Some, None, is_some, IfOk, length, slice_index_or};
ghost use Rattle.upc_values.specs.Lists.{Numbered};
ghost use Rattle.turn_cell.specs.layer.Seats.{id_of, started};
ghost use Rattle.upc_task.specs.layer.Sources.{Outcomes};
ghost use Rattle.upc_task.specs.layer.Seated.{IsTask};
ghost use Rattle.upc_task.specs.layer.Kept.{Worker};
ghost use Rattle.upc_rounds_teams.specs.layer.Course as course;
ghost use Rattle.upc_rounds_teams.specs.layer.Course.{Grows, Steps, TakesPart, InRound, ToRest, IsRound, ComesToRest};
ghost use Rattle.upc_rounds_teams.specs.layer.Places.{Moved};
ghost use Rattle.upc_rounds_teams.specs.layer.Runs.{AreSame, GoesAt, IsOpenAt, OthersStay, Rested, StopsAt, NoneStops};
ghost use Rattle.upc_rounds_teams.specs.layer.Runs.{moment_of, standing_of};
ghost use Rattle.upc_rounds_teams.specs.layer.Teams.{GoesOn, StaysCrew, workers_of, seen_among};

use memory_history::World;
use stack_code::Code;
use std::alloc::AllocError as OutOfMemory;
use std::sync::Wait;
use turn_cell::TurnCell;
use upc_rounds::round;
use upc_rounds_teams::ends::is_open;
use upc_rounds_teams::meeting::meet_all;
use upc_rounds_teams::place::Place;
use upc_task::{Pause, Task};
use upc_text::OpenGate;

// Private work, and then a step.
fn step_once<R: Wait>(
    rt: &R,
    code: &Code,
    task: &mut Task,
    cell: &TurnCell<World>,
) -> Result<Pause, OutOfMemory>
    requires kept { (f : Outcomes) × IsTask (id_of cell.now) (started cell.now).0 code.now f task.old }
    requires open { task.old.worker.«end» ≡ None }
    ensures moved { IfOk result (λ _. Moved (id_of cell.now) (started cell.now).0 code.now task.old task.new) }
    ensures steps { IfOk result (λ _. Steps (standing_of task.old.worker) (standing_of task.new.worker)) }
{
    task.work(code)?;
    let pause = task.step(rt, code, cell)?;
    Ok(pause)
}

/// One task goes on by one step, and all see what it has added.
pub(crate) fn turn<R: Wait>(
    rt: &R,
    code: &Code,
    places: &mut [Place],
    cell: &TurnCell<World>,
    at: usize,
) -> Result<(), OutOfMemory>
    requires running { GoesOn (id_of cell.now) (started cell.now).0 code.now places.old }
    requires at { (at < length places.old) × IsOpenAt (workers_of places.old) at }
    ensures running { IfOk result (λ _.
        StaysCrew (id_of cell.now) (started cell.now).0 code.now places.old places.new) }
    ensures same { IfOk result (λ _. AreSame (workers_of places.old) (workers_of places.new)) }
    ensures others { IfOk result (λ _. OthersStay at (workers_of places.old) (workers_of places.new)) }
    ensures steps { IfOk result (λ _. GoesAt Steps at (workers_of places.old) (workers_of places.new)) }
    ensures grows { IfOk result (λ _. Grows (seen_among places.old) (seen_among places.new)) }
{
    step_once(rt, code, &mut places[at].task, cell)?;
    meet_all(cell, places);
    Ok(())
}

// One task goes on to a Beat, a Stall or its end, and all see what it has added.
fn take_part<R: Wait>(
    rt: &R,
    code: &Code,
    places: &mut [Place],
    cell: &TurnCell<World>,
    at: usize,
) -> Result<(), OutOfMemory>
    requires running { GoesOn (id_of cell.now) (started cell.now).0 code.now places.old }
    requires at { (at < length places.old) × IsOpenAt (workers_of places.old) at }
    ensures running { IfOk result (λ _.
        StaysCrew (id_of cell.now) (started cell.now).0 code.now places.old places.new) }
    ensures same { IfOk result (λ _. AreSame (workers_of places.old) (workers_of places.new)) }
    ensures others { IfOk result (λ _. OthersStay at (workers_of places.old) (workers_of places.new)) }
    ensures rested { IfOk result (λ _. (d : Worker) → Rested (slice_index_or (workers_of places.new) at d)) }
    ensures part { IfOk result (λ _. GoesAt TakesPart at (workers_of places.old) (workers_of places.new)) }
    ensures grows { IfOk result (λ _. Grows (seen_among places.old) (seen_among places.new)) }
{
    round(rt, &mut places[at].task, code, cell, &OpenGate, 1)?;
    meet_all(cell, places);
    Ok(())
}

// One task goes on, if it has no end.
fn visit<R: Wait>(
    rt: &R,
    code: &Code,
    places: &mut [Place],
    cell: &TurnCell<World>,
    at: usize,
) -> Result<(), OutOfMemory>
    requires running { GoesOn (id_of cell.now) (started cell.now).0 code.now places.old }
    requires at { at < length places.old }
    ensures running { IfOk result (λ _.
        StaysCrew (id_of cell.now) (started cell.now).0 code.now places.old places.new) }
    ensures same { IfOk result (λ _. AreSame (workers_of places.old) (workers_of places.new)) }
    ensures others { IfOk result (λ _. OthersStay at (workers_of places.old) (workers_of places.new)) }
    ensures rested { IfOk result (λ _. (d : Worker) → Rested (slice_index_or (workers_of places.new) at d)) }
    ensures part { IfOk result (λ _. GoesAt InRound at (workers_of places.old) (workers_of places.new)) }
    ensures grows { IfOk result (λ _. Grows (seen_among places.old) (seen_among places.new)) }
{
    if !is_open(places, at) {
        return Ok(());
    }
    take_part(rt, code, places, cell, at)?;
    Ok(())
}

/// A round of all tasks, by number of thread. None is begun once an end has ended the run.
pub(crate) fn round_in_turn<R: Wait>(
    rt: &R,
    code: &Code,
    places: &mut [Place],
    cell: &TurnCell<World>,
) -> Result<(), OutOfMemory>
    requires running { GoesOn (id_of cell.now) (started cell.now).0 code.now places.old }
    requires quiet { NoneStops (workers_of places.old) }
    ensures running { IfOk result (λ _.
        StaysCrew (id_of cell.now) (started cell.now).0 code.now places.old places.new) }
    ensures same { IfOk result (λ _. AreSame (workers_of places.old) (workers_of places.new)) }
    ensures rested { IfOk result (λ _. Numbered (λ _ k. Rested k) (workers_of places.new)) }
    ensures round { IfOk result (λ _. IsRound
        (moment_of ((started cell.now).0, seen_among places.old) (workers_of places.old))
        (moment_of ((started cell.now).0, seen_among places.new) (workers_of places.new))) }
{
    for at in 0..places.len() {
        visit(rt, code, places, cell, at)?;
    }
    Ok(())
}

// Whether the task has its end, or stands at a Beat or a Stall.
fn is_at_rest(places: &[Place], at: usize) -> bool
    requires { at < length places.now }
    ensures { (d : Worker) → result ≡ course.rests (standing_of (slice_index_or (workers_of places.now) at d)) }
{
    let task = &places[at].task;
    task.has_ended() || task.is_pausing()
}

// One task goes on to a Beat, a Stall or its end, if it is not at rest.
fn finish<R: Wait>(
    rt: &R,
    code: &Code,
    places: &mut [Place],
    cell: &TurnCell<World>,
    at: usize,
) -> Result<(), OutOfMemory>
    requires running { GoesOn (id_of cell.now) (started cell.now).0 code.now places.old }
    requires at { at < length places.old }
    ensures running { IfOk result (λ _.
        StaysCrew (id_of cell.now) (started cell.now).0 code.now places.old places.new) }
    ensures same { IfOk result (λ _. AreSame (workers_of places.old) (workers_of places.new)) }
    ensures others { IfOk result (λ _. OthersStay at (workers_of places.old) (workers_of places.new)) }
    ensures rested { IfOk result (λ _. (d : Worker) → Rested (slice_index_or (workers_of places.new) at d)) }
    ensures part { IfOk result (λ _. GoesAt ToRest at (workers_of places.old) (workers_of places.new)) }
    ensures grows { IfOk result (λ _. Grows (seen_among places.old) (seen_among places.new)) }
{
    if is_at_rest(places, at) {
        return Ok(());
    }
    take_part(rt, code, places, cell, at)?;
    Ok(())
}

/// An end has ended the run: each task that is not at rest goes on to a Beat, a Stall or its end.
pub(crate) fn finish_all<R: Wait>(
    rt: &R,
    code: &Code,
    places: &mut [Place],
    cell: &TurnCell<World>,
) -> Result<(), OutOfMemory>
    requires running { GoesOn (id_of cell.now) (started cell.now).0 code.now places.old }
    requires stopped { (u : ℕ) × StopsAt (workers_of places.old) u }
    ensures running { IfOk result (λ _.
        StaysCrew (id_of cell.now) (started cell.now).0 code.now places.old places.new) }
    ensures same { IfOk result (λ _. AreSame (workers_of places.old) (workers_of places.new)) }
    ensures rested { IfOk result (λ _. Numbered (λ _ k. Rested k) (workers_of places.new)) }
    ensures stopped { IfOk result (λ _. (u : ℕ) × StopsAt (workers_of places.new) u) }
    ensures rest { IfOk result (λ _. ComesToRest
        (moment_of ((started cell.now).0, seen_among places.old) (workers_of places.old))
        (moment_of ((started cell.now).0, seen_among places.new) (workers_of places.new))) }
{
    for at in 0..places.len() {
        finish(rt, code, places, cell, at)?;
    }
    Ok(())
}
