//! Runs of programs.

ghost use Rattle.std.specs.Prelude.{◌≡◌, ◌≤◌, ◌*◌, IfOk};
ghost use Rattle.upc_values.specs.Consistent.{FollowsBuffers};
ghost use Rattle.typed_tree.specs.ViewProgram.{view_program};
ghost use Rattle.stack_code_laws.specs.layer.Asking.{IsCodeFor};
ghost use Rattle.gen_stmt.specs.layer.Meanings.{MeansProgram};
ghost use Rattle.upc_rounds.specs.layer.Openings.{opening_of};
ghost use Rattle.program_runs.specs.Runs.{IsRunByRounds};
ghost use Rattle.program_runs.specs.Picked.{IsRunByPicks};

use gen_stmt::compile;
use stack_code::Code;
use std::alloc::{AllocError as OutOfMemory, Global};
use std::sync::Wait;
use std::thread::Threads;
use typed_tree::Program;
use upc_rounds::run;
use upc_rounds_picks::run_by;
use upc_task::Limits;
use upc_text::Gate;
use upc_values::Journal;

// The code of a program.
fn code_of(alloc: Global, program: &Program) -> Result<Code, OutOfMemory>
    ensures means { IfOk result (λ code. MeansProgram code (view_program program.now)) }
    ensures fits { IfOk result (IsCodeFor (opening_of program.now)) }
{
    let code = compile(alloc, program)?;
    Ok(code)
}

/// Compiles a program and runs it, each thread on a thread of the machine, round by round (see `upc_rounds::run`). Each
/// thread calls the gate as it begins a round.
pub fn run_program<R: Threads + Wait + Sync, G: Gate>(
    rt: &R,
    alloc: Global,
    program: &Program,
    limits: Limits,
    gate: &G,
) -> Result<Journal, OutOfMemory>
    requires threads { program.now.threads ≡ limits.threads }
    requires budget { (1 ≤ limits.budget) × (limits.budget ≤ 1000000000000) }
    requires actions { (1 ≤ limits.actions) × (limits.threads * limits.actions ≤ 8388608) }
    ensures ran { IfOk result (IsRunByRounds (view_program program.now) limits) }
    ensures follows { IfOk result FollowsBuffers }
{
    let code = code_of(alloc, program)?;
    let journal = run(rt, alloc, program, &code, limits, gate)?;
    Ok(journal)
}

/// Compiles a program and runs it on one thread of the machine, in an order that the picks choose (see
/// `upc_rounds_picks::run_by`).
pub fn run_program_by<R: Wait>(
    rt: &R,
    alloc: Global,
    program: &Program,
    limits: Limits,
    picks: &[u32],
) -> Result<Journal, OutOfMemory>
    requires threads { program.now.threads ≡ limits.threads }
    requires budget { (1 ≤ limits.budget) × (limits.budget ≤ 1000000000000) }
    requires actions { (1 ≤ limits.actions) × (limits.threads * limits.actions ≤ 8388608) }
    ensures ran { IfOk result (IsRunByPicks (view_program program.now) limits picks.now) }
    ensures follows { IfOk result FollowsBuffers }
{
    let code = code_of(alloc, program)?;
    let journal = run_by(rt, alloc, program, &code, limits, picks)?;
    Ok(journal)
}
