//! Runs of programs on a memory in which each thread has its own copy.

ghost use Rattle.std.specs.Prelude.{◌≡◌, ◌≤◌, ◌*◌, IfOk};
ghost use Rattle.upc_values.specs.Ends.{AreSpent};
ghost use Rattle.typed_tree.specs.ViewProgram.{view_program};
ghost use Rattle.source_meaning.specs.Laws.{opening_of};
ghost use Rattle.source_meaning.specs.Threads.{thread_outcome};
ghost use Rattle.replica_space.specs.ReplicaSound.{IsSoundReplica};
ghost use Rattle.program_runs_replicas.specs.Runs.{IsRunOnReplicas};

use gen_stmt::compile;
use replica_space::ReplicaJournal;
use replica_space_runs::{run_replicas, run_replicas_by};
use std::alloc::{AllocError as OutOfMemory, Global};
use std::sync::Wait;
use std::thread::Threads;
use typed_tree::Program;
use upc_task::Limits;
use upc_text::Gate;

/// Compiles a program and runs it, each thread on a thread of the machine, round by round, on a memory in which each
/// thread has its own copy and mail from every other thread (see `replica_space_runs::run_replicas`). Each thread calls
/// the gate as it begins a round.
pub fn run_program_replicas<R: Threads + Wait + Sync, G: Gate>(
    rt: &R,
    alloc: Global,
    program: &Program,
    limits: Limits,
    gate: &G,
) -> Result<ReplicaJournal, OutOfMemory>
    requires threads { program.now.threads ≡ limits.threads }
    requires budget { (1 ≤ limits.budget) × (limits.budget ≤ 1000000000000) }
    requires actions { (1 ≤ limits.actions) × (limits.threads * limits.actions ≤ 8388608) }
    ensures { IfOk result (IsRunOnReplicas (view_program program.now) limits) }
{
    let code = compile(alloc, program)?;
    let journal = run_replicas(rt, alloc, program, &code, limits, gate)?;
    Ok(journal)
}

/// Compiles a program and runs it on one thread of the machine, in an order that the picks choose, on such a memory
/// (see `replica_space_runs::run_replicas_by`).
pub fn run_program_replicas_by<R: Wait>(
    rt: &R,
    alloc: Global,
    program: &Program,
    limits: Limits,
    picks: &[u32],
) -> Result<ReplicaJournal, OutOfMemory>
    requires threads { program.now.threads ≡ limits.threads }
    requires budget { (1 ≤ limits.budget) × (limits.budget ≤ 1000000000000) }
    requires actions { (1 ≤ limits.actions) × (limits.threads * limits.actions ≤ 8388608) }
    ensures sound { IfOk result (IsSoundReplica (opening_of (view_program program.now))
        (λ budget t. thread_outcome (view_program program.now) t budget)) }
    ensures limits { IfOk result (λ j. (j.threads ≡ limits.threads) × (j.budget ≡ limits.budget)
        × (j.actions ≡ limits.actions)) }
    ensures spent { IfOk result (λ j. AreSpent limits.budget j.strands) }
{
    let code = compile(alloc, program)?;
    let journal = run_replicas_by(rt, alloc, program, &code, limits, picks)?;
    Ok(journal)
}
