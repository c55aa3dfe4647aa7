//! Runs by rounds, each thread on a thread of its own.

ghost use Rattle.std.specs.Prelude.{ℕ, ◌≡◌, ◌<◌, ◌≤◌, ◌*◌, [], true, false, IfOk, length};
ghost use Rattle.upc_values.specs.Ends.{AreSpent};
ghost use Rattle.upc_values.specs.Lists.{Numbered};
ghost use Rattle.stack_code.specs.layer.Codes.{Codes};
ghost use Rattle.stack_code_laws.specs.layer.Asking.{IsCodeFor};
ghost use Rattle.replica_space.specs.ReplicaSound.{IsSoundReplica};
ghost use Rattle.upc_task.specs.layer.Sources.{Outcomes, HasOutcomes, GivesOutcomes};
ghost use Rattle.upc_task.specs.layer.Recorded.{AreLimits};
ghost use Rattle.upc_rounds_base.specs.layer.Openings.{opening_of};
ghost use Rattle.upc_rounds_base.specs.layer.Ending.{Rested};
ghost use Rattle.replica_space_crews.specs.layer.Crews.{GoesOn, ComesToEnd};
ghost use Rattle.replica_space_rounds.specs.ReplicaRounds.{GoesByReplicaRounds};
ghost use Rattle.replica_space_rounds.specs.layer.Rounds.{HasGone, StaysInRounds};
ghost use Rattle.replica_space_runs.specs.code.Endings.{HasCome};

use crate::begin::{begin, close_all, make_all};
use replica_space::ReplicaJournal;
use replica_space_acts::Replicas;
use replica_space_crews::ends::{all_ended, halt_all, is_stopped, lock_all, none_goes};
use replica_space_rounds::{Crew, go};
use replica_space_tasks::{ReplicaWorker, what_workers_keep};
use stack_code::Code;
use std::alloc::Global;
use std::sync::Wait;
use std::thread::Threads;
use typed_tree::Program;
use upc_task::Limits;
use upc_text::{Gate, OutOfMemory};
use upc_values::{Listing, Strand};

// Whether the run is over after a round; then each worker without an end is given one.
fn settle(workers: &mut [ReplicaWorker], run: &Replicas) -> Result<bool, OutOfMemory>
    requires running { (p : Codes) × GoesOn p run.now workers.old }
    requires rested { Numbered (λ _ k. Rested k.recorder) workers.old }
    ensures many { IfOk result (λ _. length workers.new ≡ length workers.old) }
    ensures over { IfOk result (λ over. over ≡ true
        → (p : Codes) → ComesToEnd p run.now workers.old run.now workers.new) }
    ensures rounds { IfOk result (λ _. (f : Outcomes)
        → HasGone run.now.0 f run.now.1 workers.old → HasGone run.now.0 f run.now.1 workers.new) }
    ensures goes { IfOk result (λ over. over ≡ false → workers.new ≡ workers.old) }
{
    if is_stopped(workers) {
        halt_all(workers);
        return Ok(true);
    }
    if all_ended(workers) {
        return Ok(true);
    }
    if none_goes(workers, run) {
        lock_all(workers)?;
        return Ok(true);
    }
    Ok(false)
}

// Rounds of all, until the run is over.
fn rounds<R: Threads + Wait + Sync, G: Gate>(
    rt: &R,
    alloc: Global,
    code: &Code,
    crew: Crew,
    gate: &G,
) -> Result<Crew, OutOfMemory>
    requires some { 0 < length crew.workers.items }
    requires running { GoesOn code.now crew.run crew.workers.items }
    ensures over { IfOk result (λ m.
        ComesToEnd code.now crew.run crew.workers.items m.run m.workers.items) }
    ensures rounds { IfOk result (StaysInRounds code.now crew) }
{
    let mut now = crew;
    let mut number = 0u64;
    for _ in rt.forever() {
        number = number.saturating_add(1);
        now = go(rt, alloc, code, now, gate, number)?;
        let over = settle(now.workers.as_mut_slice(), &now.run)?;
        if over {
            return Ok(now);
        }
    }
    unreachable!()
}

// The strands of all threads of a run by rounds, from its beginning to its end, with the run.
fn run_rounds<R: Threads + Wait + Sync, G: Gate>(
    rt: &R,
    alloc: Global,
    code: &Code,
    limits: Limits,
    run: Replicas,
    gate: &G,
) -> Result<(Vec<Strand>, Replicas), OutOfMemory>
    requires limits { AreLimits limits }
    requires code { code.now.threads ≡ limits.threads }
    requires empty { run.1 ≡ [] }
    requires outcomes { (f : Outcomes) × HasOutcomes run.0 code.now limits f }
    ensures opening { IfOk result (λ r. r.1.0 ≡ run.0) }
    ensures over { IfOk result (λ r. (f : Outcomes) → HasOutcomes run.0 code.now limits f
        → HasCome code.now limits f r.1 r.0.items) }
{
    let workers = make_all(alloc, code, limits)?;
    let over = rounds(rt, alloc, code, Crew { workers, run }, gate)?;
    let Crew { workers, run } = over;
    let strands = close_all(alloc, workers)?;
    Ok((strands, run))
}

/// Runs code by rounds, with one thread of the machine for each thread of the code, on a memory with a copy for each
/// thread; the code has the program's threads and shapes and names no shared object but the program's declared ones. In
/// each round every thread without an end goes on, at the same time as the others, to a Beat, a Stall or its end. Each
/// calls the gate as it begins; rounds are numbered from 1.
///
/// The run is over after a round in which an end has ended it, after which no thread has no end, or after which every
/// thread without an end stands at a Stall and wants what is not legal then.
///
/// The journal is sound: each thread's record is what its code gives on the recorded replies, and one replica run has
/// the actions of these records, with each message delivered when it is due. It goes by rounds. Which threads come
/// first in a round differs from run to run.
pub fn run_replicas<R: Threads + Wait + Sync, G: Gate>(
    rt: &R,
    alloc: Global,
    program: &Program,
    code: &Code,
    limits: Limits,
    gate: &G,
) -> Result<ReplicaJournal, OutOfMemory>
    requires threads { (1 ≤ limits.threads) × (limits.threads ≤ 32) }
    requires budget { (1 ≤ limits.budget) × (limits.budget ≤ 1000000000000) }
    requires actions { (1 ≤ limits.actions) × (limits.threads * limits.actions ≤ 8388608) }
    requires same { program.now.threads ≡ limits.threads }
    requires fits { IsCodeFor (opening_of program.now) code.now }
    ensures sound { IfOk result (λ j. (f : ℕ → Outcomes) → GivesOutcomes code.now limits (f limits.budget)
        → IsSoundReplica (opening_of program.now) f j) }
    ensures limits { IfOk result (λ j. (j.threads ≡ limits.threads) × (j.budget ≡ limits.budget)
        × (j.actions ≡ limits.actions)) }
    ensures spent { IfOk result (λ j. AreSpent limits.budget j.strands) }
    ensures rounds { IfOk result (λ j. (f : ℕ → Outcomes) → GivesOutcomes code.now limits (f limits.budget)
        → GoesByReplicaRounds (opening_of program.now) f j) }
{
    code.keep();
    what_workers_keep();
    let begun = begin(alloc, program, limits.threads)?;
    let (strands, replicas) = run_rounds(rt, alloc, code, limits, begun, gate)?;
    let events = replicas.into_events()?;
    Ok(ReplicaJournal {
        threads: limits.threads,
        budget: limits.budget,
        actions: limits.actions,
        strands: Listing::from_vec(strands),
        events,
    })
}
