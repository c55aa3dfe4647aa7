//! The run of a source on a memory in which each thread has its own copy.

ghost use Rattle.std.specs.Prelude.{◌≡◌, ◌≤◌, length};
ghost use Rattle.upc_top_words.specs.declared.call.Mode.TheVariants.{Replica};
ghost use Rattle.upc_top_words.specs.Values.{IsInRange, IsAllowed, view_call};
ghost use Rattle.upc_top.specs.Verdicts.{Reading, ComesFrom};

use crate::front::read_source;
use crate::verdict::{Verdict, stopped};
use program_runs_replicas::run_program_replicas;
use std::alloc::Global;
use std::sync::Wait;
use std::thread::Threads;
use upc_task::Limits;
use upc_text::Gate;
use upc_top_words::Call;

/// The verdict on a source that is to be run on a memory in which each thread has its own copy.
pub fn run_replicated<R: Threads + Wait + Sync, G: Gate>(
    rt: &R,
    alloc: Global,
    call: &Call<'_>,
    bytes: &[u8],
    gate: &G,
) -> Verdict
    requires mode { call.now.mode ≡ Replica }
    requires range { IsInRange (view_call call.now) }
    requires allowed { IsAllowed (view_call call.now) }
    requires short { length bytes.now ≤ 1048576 }
    ensures { (r : Reading) → ComesFrom r (view_call call.now) bytes.now result }
{
    let program = match read_source(alloc, call.threads, bytes) {
        Ok(program) => program,
        Err(stop) => return stopped(stop),
    };
    let limits = Limits {
        threads: call.threads,
        budget: call.budget,
        actions: call.actions,
    };
    match run_program_replicas(rt, alloc, &program, limits, gate) {
        Ok(journal) => Verdict::Replicated(journal),
        Err(_) => Verdict::NoMemory(None),
    }
}
