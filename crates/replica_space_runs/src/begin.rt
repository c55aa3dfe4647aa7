//! The beginning and the end of a run.

ghost use Rattle.std.specs.Prelude.{ℕ, ◌≡◌, ◌<◌, [], true, is_some, length, IfOk};
ghost use Rattle.upc_values.specs.Lists.{Numbered};
ghost use Rattle.upc_values.specs.Openings.{Opening};
ghost use Rattle.stack_code.specs.layer.Codes.{Codes};
ghost use Rattle.replica_space.specs.declared.event.Event.{Event};
ghost use Rattle.upc_task.specs.layer.Sources.{Outcomes, HasOutcomes};
ghost use Rattle.upc_task.specs.layer.Recorded.{AreLimits};
ghost use Rattle.replica_space_tasks.specs.layer.Kept.{IsKept};
ghost use Rattle.replica_space_crews.specs.layer.Crews.{IsCrew, strands_of};
ghost use Rattle.upc_rounds_base.specs.layer.Openings.{opening_of};
ghost use Rattle.std.specs.Prelude.{List};

use replica_space_acts::Replicas;
use replica_space_tasks::ReplicaWorker;
use stack_code::Code;
use std::alloc::Global;
use typed_tree::Program;
use upc_rounds_base::objects_of;
use upc_task::Limits;
use upc_text::OutOfMemory;
use upc_values::Strand;

/// The run with which a program begins.
pub(crate) fn begin(alloc: Global, program: &Program, threads: u32) -> Result<Replicas, OutOfMemory>
    requires { program.now.threads ≡ threads }
    ensures { IfOk result (λ r. (r.1 ≡ []) × (r.0 ≡ opening_of program.now)) }
{
    let declared = objects_of(alloc, program.shared_objects())?;
    Replicas::make(
        alloc,
        declared.as_slice(),
        program.initials(),
        program.shapes(),
        threads,
    )
}

/// A worker for each thread.
pub(crate) fn make_all(
    alloc: Global,
    code: &Code,
    limits: Limits,
) -> Result<Vec<ReplicaWorker>, OutOfMemory>
    requires limits { AreLimits limits }
    requires code { code.now.threads ≡ limits.threads }
    ensures many { IfOk result (λ ks. length ks.items ≡ limits.threads) }
    ensures crew { IfOk result (λ ks. (o : Opening) (f : Outcomes) → HasOutcomes o code.now limits f
        → IsCrew code.now limits f (o, []) ks.items) }
{
    let mut workers = Vec::new(alloc);
    for thread in 0..limits.threads {
        let worker = ReplicaWorker::make(alloc, code, thread, limits)?;
        workers.push(worker)?;
    }
    Ok(workers)
}

/// The strands, in order.
pub(crate) fn close_all(
    alloc: Global,
    workers: Vec<ReplicaWorker>,
) -> Result<Vec<Strand>, OutOfMemory>
    requires { Numbered (λ _ k. is_some k.recorder.«end» ≡ true) workers.items }
    ensures { IfOk result (λ ss. (o : Opening) (c : Codes) (f : Outcomes) (events : List Event)
        → Numbered (λ _ k. IsKept o c f events k) workers.items → ss.items ≡ strands_of f workers.items) }
{
    let mut strands = Vec::new(alloc);
    for worker in workers {
        strands.push(worker.into_strand())?;
    }
    Ok(strands)
}
