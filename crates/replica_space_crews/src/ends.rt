//! How a run ends.

ghost use Rattle.std.specs.Prelude.{ℕ, ◌≡◌, ◌<◌, true, false, None, is_some, length, slice_index_or, IfOk};
ghost use Rattle.upc_values.specs.Lists.{Numbered};
ghost use Rattle.upc_values.specs.Ends as ends;
ghost use Rattle.stack_code.specs.layer.Codes.{Codes};
ghost use Rattle.replica_space.specs.declared.event.Event.{Event};
ghost use Rattle.replica_space.specs.Events.{history_in};
ghost use Rattle.upc_task.specs.layer.Sources.{Outcomes};
ghost use Rattle.upc_rounds_base.specs.layer.Ending.{Rested, Stops, IsQuiet, Wanting, CanLock};
ghost use Rattle.replica_space_tasks.specs.declared.worker.ReplicaWorker.{ReplicaWorker};
ghost use Rattle.replica_space_tasks.specs.layer.Kept.{IsKept};
ghost use Rattle.replica_space_crews.specs.layer.Crews as crews;
ghost use Rattle.replica_space_crews.specs.layer.Crews.{GoesOn, IsStopped, NoneStops, AreEach, IsHalted, IsLocked};

use replica_space_acts::Replicas;
use replica_space_tasks::{ReplicaWorker, what_workers_keep};
use upc_text::OutOfMemory;
use upc_values::End;

/// Whether the worker has no end.
pub fn is_open(workers: &[ReplicaWorker], at: usize) -> bool
    requires { at < length workers.now }
    ensures { (d : ReplicaWorker) → result ≡ crews.is_open (slice_index_or workers.now at d) }
{
    !workers[at].has_ended()
}

fn stops(worker: &ReplicaWorker) -> bool
    ensures yes { result ≡ true → Stops worker.now.recorder }
    ensures no { result ≡ false → IsQuiet worker.now.recorder }
{
    match worker.end() {
        Some(End::Fault(_, _)) => true,
        Some(End::Budget) => true,
        Some(End::ActionsFull) => true,
        Some(End::Exit(_)) => true,
        _ => false,
    }
}

/// Whether some worker has an end that ends the run.
pub fn is_stopped(workers: &[ReplicaWorker]) -> bool
    ensures yes { result ≡ true → IsStopped workers.now }
    ensures no { result ≡ false → NoneStops workers.now }
{
    for at in 0..workers.len() {
        if stops(&workers[at]) {
            return true;
        }
    }
    false
}

/// Whether each worker has its end.
pub fn all_ended(workers: &[ReplicaWorker]) -> bool
    ensures { result ≡ true → Numbered (λ _ k. is_some k.recorder.«end» ≡ true) workers.now }
{
    for at in 0..workers.len() {
        if is_open(workers, at) {
            return false;
        }
    }
    true
}

// Whether the worker goes on: it has no end, and stands at no Stall, or at one whose action is legal now.
fn goes(worker: &ReplicaWorker, run: &Replicas) -> bool
    requires { (p : Codes) × (f : Outcomes) × IsKept run.now.0 p f run.now.1 worker.now }
    ensures { result ≡ false → worker.now.recorder.«end» ≡ None
        → Wanting run.now.0 (history_in run.now.1) worker.now.recorder }
{
    if worker.has_ended() {
        return false;
    }
    if !worker.is_stalled() {
        return true;
    }
    let Some(action) = worker.wanted() else {
        unreachable!()
    };
    what_workers_keep();
    run.keeps();
    run.would_go(worker.thread(), action)
}

/// Whether each worker without an end stands at a Stall, and wants what is not legal now.
pub fn none_goes(workers: &[ReplicaWorker], run: &Replicas) -> bool
    requires { (p : Codes) × GoesOn p run.now workers.now }
    ensures { result ≡ true → Numbered (λ _ k. k.recorder.«end» ≡ None
        → Wanting run.now.0 (history_in run.now.1) k.recorder) workers.now }
{
    for at in 0..workers.len() {
        if goes(&workers[at], run) {
            return false;
        }
    }
    true
}

// Another worker ended the run.
fn halt(worker: &mut ReplicaWorker)
    requires { Rested worker.old.recorder }
    ensures { IsHalted worker.old worker.new }
{
    if !worker.has_ended() {
        worker.end_as(End::Halted);
    }
}

// The worker is deadlocked, if it has no end.
fn lock(worker: &mut ReplicaWorker) -> Result<(), OutOfMemory>
    requires { worker.old.recorder.«end» ≡ None → CanLock worker.old.recorder }
    ensures { IfOk result (λ _. IsLocked worker.old worker.new) }
{
    if worker.has_ended() {
        return Ok(());
    }
    let Some(action) = worker.copy_wanted()? else {
        unreachable!()
    };
    worker.end_as(End::Deadlocked(action));
    Ok(())
}

/// Each worker without an end is halted.
pub fn halt_all(workers: &mut [ReplicaWorker])
    requires { Numbered (λ _ k. Rested k.recorder) workers.old }
    ensures { AreEach IsHalted workers.old workers.new }
{
    for at in 0..workers.len() {
        halt(&mut workers[at]);
    }
}

/// Each worker without an end is deadlocked.
pub fn lock_all(workers: &mut [ReplicaWorker]) -> Result<(), OutOfMemory>
    requires { Numbered (λ _ k. k.recorder.«end» ≡ None → CanLock k.recorder) workers.old }
    ensures { IfOk result (λ _. AreEach IsLocked workers.old workers.new) }
{
    for at in 0..workers.len() {
        lock(&mut workers[at])?;
    }
    Ok(())
}
