//! Runs on one thread of the machine, in an order that picks choose.

ghost use Rattle.std.specs.Prelude.{ℕ, ◌≡◌, ◌≤◌, ◌*◌, List, [], IfOk, IfSome, IsNone};
ghost use Rattle.upc_values.specs.Ends.{AreSpent};
ghost use Rattle.stack_code_laws.specs.layer.Asking.{IsCodeFor};
ghost use Rattle.replica_space.specs.ReplicaSound.{IsSoundReplica};
ghost use Rattle.upc_task.specs.layer.Sources.{Outcomes, GivesOutcomes, HasOutcomes};
ghost use Rattle.upc_task.specs.layer.Recorded.{AreLimits};
ghost use Rattle.upc_rounds_base.specs.layer.Openings.{opening_of};
ghost use Rattle.replica_space_tasks.specs.declared.worker.ReplicaWorker.{ReplicaWorker};
ghost use Rattle.replica_space_crews.specs.layer.Crews.{GoesOn, StaysCrew, ComesToEnd, IsOver, IsChosen};
ghost use Rattle.replica_space_crews.specs.layer.Crews.{open_among, strands_of};

use crate::begin::{begin, close_all, make_all};
use crate::turns::{bring_all, turn};
use replica_space::ReplicaJournal;
use replica_space_acts::Replicas;
use replica_space_crews::ends::{all_ended, halt_all, is_open, is_stopped, lock_all, none_goes};
use replica_space_tasks::{ReplicaWorker, what_workers_keep};
use stack_code::Code;
use std::alloc::Global;
use std::sync::Wait;
use typed_tree::Program;
use upc_task::Limits;
use upc_text::OutOfMemory;
use upc_values::{Listing, Strand};

// Rounds by number of thread, until the run is over; but where an end has ended it already none is begun, and each
// worker goes on to its rest.
fn rounds<R: Wait>(
    rt: &R,
    code: &Code,
    workers: &mut [ReplicaWorker],
    run: &mut Replicas,
) -> Result<(), OutOfMemory>
    requires { GoesOn code.now run.old workers.old }
    ensures { IfOk result (λ _. ComesToEnd code.now run.old workers.old run.new workers.new) }
{
    for _ in rt.forever() {
        let quiet = !is_stopped(workers);
        bring_all(rt, code, workers, run, quiet)?;
        if is_stopped(workers) {
            halt_all(workers);
            return Ok(());
        }
        if all_ended(workers) {
            return Ok(());
        }
        if none_goes(workers, run) {
            lock_all(workers)?;
            return Ok(());
        }
    }
    unreachable!()
}

fn count_open(workers: &[ReplicaWorker]) -> usize
    ensures { result ≡ open_among workers.now }
{
    let mut live = 0usize;
    for at in 0..workers.len() {
        if is_open(workers, at) {
            live += 1;
        }
    }
    live
}

// The worker without an end that a pick chooses, none where all have their ends.
fn chosen(workers: &[ReplicaWorker], pick: u32) -> Option<usize>
    ensures none { IsNone result → open_among workers.now ≡ 0 }
    ensures some { IfSome result (λ at. IsChosen workers.now pick at) }
{
    let live = count_open(workers);
    if live == 0 {
        return None;
    }
    let mut left = pick as usize % live;
    for at in 0..workers.len() {
        if is_open(workers, at) {
            if left == 0 {
                return Some(at);
            }
            left -= 1;
        }
    }
    unreachable!()
}

// One step for each pick of the worker that it chooses, while no end ends the run.
fn pick_all(
    code: &Code,
    workers: &mut [ReplicaWorker],
    run: &mut Replicas,
    picks: &[u32],
) -> Result<(), OutOfMemory>
    requires { GoesOn code.now run.old workers.old }
    ensures { IfOk result (λ _. StaysCrew code.now run.old workers.old run.new workers.new) }
{
    for pick in picks {
        if is_stopped(workers) {
            return Ok(());
        }
        let Some(at) = chosen(workers, *pick) else {
            return Ok(());
        };
        turn(code, workers, run, at)?;
    }
    Ok(())
}

// The picks, and what follows them.
fn go_all<R: Wait>(
    rt: &R,
    code: &Code,
    workers: &mut [ReplicaWorker],
    run: &mut Replicas,
    picks: &[u32],
) -> Result<(), OutOfMemory>
    requires { GoesOn code.now run.old workers.old }
    ensures { IfOk result (λ _. ComesToEnd code.now run.old workers.old run.new workers.new) }
{
    pick_all(code, workers, run, picks)?;
    rounds(rt, code, workers, run)?;
    Ok(())
}

// The strands of all threads of a run, from its beginning to its end.
fn run_all<R: Wait>(
    rt: &R,
    alloc: Global,
    code: &Code,
    limits: Limits,
    run: &mut Replicas,
    picks: &[u32],
) -> Result<Vec<Strand>, OutOfMemory>
    requires limits { AreLimits limits }
    requires code { code.now.threads ≡ limits.threads }
    requires empty { run.old.1 ≡ [] }
    requires outcomes { (f : Outcomes) × HasOutcomes run.old.0 code.now limits f }
    ensures opening { IfOk result (λ _. run.new.0 ≡ run.old.0) }
    ensures over { IfOk result (λ ss. (f : Outcomes) → HasOutcomes run.old.0 code.now limits f
        → (ms : List ReplicaWorker) × IsOver code.now limits f run.new ms × (ss.items ≡ strands_of f ms)) }
{
    let mut workers = make_all(alloc, code, limits)?;
    go_all(rt, code, workers.as_mut_slice(), run, picks)?;
    let strands = close_all(alloc, workers)?;
    Ok(strands)
}

/// Runs code on one thread of the machine on a memory with a copy for each thread, in an order that the picks choose;
/// the code has the program's threads and shapes and names no shared object but the program's declared ones. Each pick
/// is taken modulo the number of threads without an end, and chooses among them by number; the chosen one is given one
/// step. Once an end ends the run, or where all threads have ended, the other picks are passed over. Then rounds go by
/// number of thread: in each, every thread without an end goes on to a Beat, a Stall or its end.
///
/// Where an end has ended the run already after the picks, no round is begun: every thread that stands neither at a
/// Beat nor at a Stall goes on to one, or to its end.
///
/// The journal is sound: each thread's record is what its code gives on the recorded replies, and one replica run has
/// the actions of these records, with each message delivered when it is due.
pub fn run_replicas_by<R: Wait>(
    rt: &R,
    alloc: Global,
    program: &Program,
    code: &Code,
    limits: Limits,
    picks: &[u32],
) -> Result<ReplicaJournal, OutOfMemory>
    requires threads { (1 ≤ limits.threads) × (limits.threads ≤ 32) }
    requires budget { (1 ≤ limits.budget) × (limits.budget ≤ 1000000000000) }
    requires actions { (1 ≤ limits.actions) × (limits.threads * limits.actions ≤ 8388608) }
    requires same { program.now.threads ≡ limits.threads }
    requires fits { IsCodeFor (opening_of program.now) code.now }
    ensures sound { IfOk result (λ j. (f : ℕ → Outcomes) → GivesOutcomes code.now limits (f limits.budget)
        → IsSoundReplica (opening_of program.now) f j) }
    ensures limits { IfOk result (λ j. (j.threads ≡ limits.threads) × (j.budget ≡ limits.budget)
        × (j.actions ≡ limits.actions)) }
    ensures spent { IfOk result (λ j. AreSpent limits.budget j.strands) }
{
    code.keep();
    what_workers_keep();
    let mut replicas = begin(alloc, program, limits.threads)?;
    let strands = run_all(rt, alloc, code, limits, &mut replicas, picks)?;
    let events = replicas.into_events()?;
    Ok(ReplicaJournal {
        threads: limits.threads,
        budget: limits.budget,
        actions: limits.actions,
        strands: Listing::from_vec(strands),
        events,
    })
}
