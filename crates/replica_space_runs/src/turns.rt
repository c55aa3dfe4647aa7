//! Workers that go on one after another.

ghost use Rattle.std.specs.Prelude.{ℕ, ◌≡◌, ◌<◌, None, IfOk, length, slice_index_or};
ghost use Rattle.upc_values.specs.Lists.{Numbered};
ghost use Rattle.upc_task.specs.layer.Sources.{Outcomes};
ghost use Rattle.upc_task.specs.layer.Recorded.{Paused};
ghost use Rattle.upc_rounds_base.specs.layer.Ending.{Rested};
ghost use Rattle.replica_space_tasks.specs.declared.worker.ReplicaWorker.{ReplicaWorker};
ghost use Rattle.replica_space_tasks.specs.layer.Kept.{IsKept};
ghost use Rattle.replica_space_crews.specs.layer.Crews.{GoesOn, StaysCrew, IsOpenAt, OthersStay, Moved};

use replica_space_acts::Replicas;
use replica_space_crews::ends::is_open;
use replica_space_tasks::{ReplicaWorker, what_workers_keep};
use stack_code::Code;
use std::sync::Wait;
use upc_task::Pause;
use upc_text::OutOfMemory;

// Private work, and then a step.
fn step_once(
    code: &Code,
    worker: &mut ReplicaWorker,
    run: &mut Replicas,
) -> Result<Pause, OutOfMemory>
    requires kept { (f : Outcomes) × IsKept run.old.0 code.now f run.old.1 worker.old }
    requires open { worker.old.recorder.«end» ≡ None }
    ensures moved { IfOk result (λ _. Moved code.now run.old worker.old run.new worker.new) }
    ensures pause { IfOk result (λ p. Paused p worker.new.recorder) }
{
    worker.work(code)?;
    let pause = worker.step(run)?;
    Ok(pause)
}

// The worker goes on to a Beat, a Stall or its end.
fn go_on<R: Wait>(
    rt: &R,
    code: &Code,
    worker: &mut ReplicaWorker,
    run: &mut Replicas,
) -> Result<(), OutOfMemory>
    requires kept { (f : Outcomes) × IsKept run.old.0 code.now f run.old.1 worker.old }
    requires open { worker.old.recorder.«end» ≡ None }
    ensures moved { IfOk result (λ _. Moved code.now run.old worker.old run.new worker.new) }
    ensures rested { IfOk result (λ _. Rested worker.new.recorder) }
{
    for _ in rt.forever() {
        let pause = step_once(code, worker, run)?;
        match pause {
            Pause::Going => {}
            Pause::Beat | Pause::Stalled | Pause::Finished => return Ok(()),
        }
    }
    unreachable!()
}

/// One worker goes on by one step.
pub(crate) fn turn(
    code: &Code,
    workers: &mut [ReplicaWorker],
    run: &mut Replicas,
    at: usize,
) -> Result<(), OutOfMemory>
    requires running { GoesOn code.now run.old workers.old }
    requires at { (at < length workers.old) × IsOpenAt workers.old at }
    ensures { IfOk result (λ _. StaysCrew code.now run.old workers.old run.new workers.new) }
{
    what_workers_keep();
    step_once(code, &mut workers[at], run)?;
    Ok(())
}

// One worker goes on to a Beat, a Stall or its end.
fn take_part<R: Wait>(
    rt: &R,
    code: &Code,
    workers: &mut [ReplicaWorker],
    run: &mut Replicas,
    at: usize,
) -> Result<(), OutOfMemory>
    requires running { GoesOn code.now run.old workers.old }
    requires at { (at < length workers.old) × IsOpenAt workers.old at }
    ensures running { IfOk result (λ _. StaysCrew code.now run.old workers.old run.new workers.new) }
    ensures others { IfOk result (λ _. OthersStay at workers.old workers.new) }
    ensures rested { IfOk result (λ _. (d : ReplicaWorker) → Rested (slice_index_or workers.new at d).recorder) }
{
    what_workers_keep();
    go_on(rt, code, &mut workers[at], run)?;
    Ok(())
}

// One worker goes on to a Beat, a Stall or its end, if it has no end, and, unless all are to go on, does not rest.
fn visit<R: Wait>(
    rt: &R,
    code: &Code,
    workers: &mut [ReplicaWorker],
    run: &mut Replicas,
    at: usize,
    all: bool,
) -> Result<(), OutOfMemory>
    requires running { GoesOn code.now run.old workers.old }
    requires at { at < length workers.old }
    ensures running { IfOk result (λ _. StaysCrew code.now run.old workers.old run.new workers.new) }
    ensures others { IfOk result (λ _. OthersStay at workers.old workers.new) }
    ensures rested { IfOk result (λ _. (d : ReplicaWorker) → Rested (slice_index_or workers.new at d).recorder) }
{
    if !is_open(workers, at) {
        return Ok(());
    }
    if !all && workers[at].is_pausing() {
        return Ok(());
    }
    take_part(rt, code, workers, run, at)?;
    Ok(())
}

/// Each worker without an end goes on to a Beat, a Stall or its end, by number of thread; but unless all are to go on,
/// one that stands at a Beat or a Stall stays there.
pub(crate) fn bring_all<R: Wait>(
    rt: &R,
    code: &Code,
    workers: &mut [ReplicaWorker],
    run: &mut Replicas,
    all: bool,
) -> Result<(), OutOfMemory>
    requires { GoesOn code.now run.old workers.old }
    ensures running { IfOk result (λ _. StaysCrew code.now run.old workers.old run.new workers.new) }
    ensures rested { IfOk result (λ _. Numbered (λ _ k. Rested k.recorder) workers.new) }
{
    for at in 0..workers.len() {
        visit(rt, code, workers, run, at, all)?;
    }
    Ok(())
}
