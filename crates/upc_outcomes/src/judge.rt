//! From the words to the verdict of the top call.

ghost use Rattle.std.specs.Prelude.{◌≡◌, ◌≤◌, ℕ, List, true, length, map, string_bytes};
ghost use Rattle.upc_values.specs.Consistent.{FollowsBuffers};
ghost use Rattle.typed_tree.specs.ViewProgram.{view_program};
ghost use Rattle.upc_outcomes_words.specs.Values.{Asked, IsAllowed, recorded as wants};
ghost use Rattle.upc_outcomes_words.specs.layer.Views.{view_call};
ghost use Rattle.upc_top.specs.Sources.{IsAccepted, StopsReading};
ghost use Rattle.upc_top.specs.Verdicts.{reading};
ghost use Rattle.upc_outcomes.specs.Causes.{Caused, ComesFrom, limits_of};
ghost use Rattle.upc_outcomes.specs.Plans.{is_listing};
ghost use Rattle.upc_outcomes.specs.code.Records.{IsRecordOf};

use crate::plan::lists_of;
use crate::verdict::Verdict;
use order_builder::orders;
use outcomes::explore;
use program_runs::run_program_by;
use run_recorder_text::is_short;
use std::alloc::Global;
use std::sync::Wait;
use typed_tree::Program;
use upc_outcomes_words::{Call, Plan, read_words};
use upc_task::Limits;
use upc_text::{ReadEnd, Sources, Stop, read_all};
use upc_top::read_source;
use upc_top_words::NoCall;
use upc_values::Journal;

fn limits(call: &Call<'_>) -> Limits
    requires { IsAllowed (view_call call.now) }
    ensures { result ≡ limits_of (view_call call.now) }
{
    Limits {
        threads: call.threads as u32,
        budget: call.budget,
        actions: call.actions,
    }
}

// The verdict on a run whose record was asked for: its orders with it, or that it is too long for a text.
fn recorded(alloc: Global, journal: Journal) -> Verdict
    requires { FollowsBuffers journal }
    ensures { IsRecordOf journal result }
{
    if !is_short(&journal) {
        return Verdict::Overlong;
    }
    match orders(alloc, &journal) {
        Ok(orders) => Verdict::Recorded(journal, orders),
        Err(_) => Verdict::NoMemory,
    }
}

// Runs a program by one list of picks, for the record of the run.
fn record<R: Wait>(
    rt: &R,
    alloc: Global,
    call: &Call<'_>,
    bytes: &[u8],
    program: &Program,
    picks: &[u32],
) -> Verdict
    requires allowed { IsAllowed (view_call call.now) }
    requires accepted { IsAccepted call.now.threads bytes.now (view_program program.now) }
    requires wanted { (view_call call.now).wanted ≡ wants picks.now }
    ensures { ComesFrom (view_call call.now) bytes.now result }
{
    match run_program_by(rt, alloc, program, limits(call), picks) {
        Ok(journal) => recorded(alloc, journal),
        Err(_) => Verdict::NoMemory,
    }
}

// Runs a program by each list of picks that is asked for.
fn find<R: Wait>(rt: &R, alloc: Global, call: &Call<'_>, bytes: &[u8], program: &Program) -> Verdict
    requires allowed { IsAllowed (view_call call.now) }
    requires accepted { IsAccepted call.now.threads bytes.now (view_program program.now) }
    requires listing { is_listing (view_call call.now).wanted ≡ true }
    ensures { ComesFrom (view_call call.now) bytes.now result }
{
    let Ok(lists) = lists_of(alloc, call.threads as u32, &call.plan) else {
        return Verdict::NoMemory;
    };
    match explore(rt, alloc, program, limits(call), lists.as_slice()) {
        Ok(rows) => Verdict::Found(lists.len() as u32, rows),
        Err(_) => Verdict::NoMemory,
    }
}

// The verdict on a source that is accepted.
fn run_accepted<R: Wait>(
    rt: &R,
    alloc: Global,
    call: &Call<'_>,
    bytes: &[u8],
    program: &Program,
) -> Verdict
    requires allowed { IsAllowed (view_call call.now) }
    requires accepted { IsAccepted call.now.threads bytes.now (view_program program.now) }
    ensures { ComesFrom (view_call call.now) bytes.now result }
{
    match &call.plan {
        Plan::Recorded(picks) => record(rt, alloc, call, bytes, program, picks.as_slice()),
        _ => find(rt, alloc, call, bytes, program),
    }
}

// The verdict on a source that is refused, or for which memory was wanting.
fn stopped(stop: Stop) -> Verdict
    ensures { (a : Asked) (bytes : List ℕ) → StopsReading a.threads bytes stop → ComesFrom a bytes result }
{
    match stop {
        Stop::Refused(refusal) => Verdict::Refused(refusal),
        Stop::Memory => Verdict::NoMemory,
    }
}

// The verdict on a source.
fn come_to<R: Wait>(rt: &R, alloc: Global, call: &Call<'_>, bytes: &[u8]) -> Verdict
    requires allowed { IsAllowed (view_call call.now) }
    requires short { length bytes.now ≤ 1048576 }
    ensures { ComesFrom (view_call call.now) bytes.now result }
{
    match read_source(alloc, call.threads as u32, bytes) {
        Ok(program) => run_accepted(rt, alloc, call, bytes, &program),
        Err(stop) => stopped(stop),
    }
}

/// The verdict on the words and the file.
pub fn judge<R: Wait, S: Sources>(rt: &R, alloc: Global, words: &[String], files: &mut S) -> Verdict
    ensures { Caused (map string_bytes words.now)
        (reading (S.bytes_of files.old) (S.faults files.old) (S.faults files.new))
        result }
{
    let call = match read_words(alloc, words) {
        Ok(call) => call,
        Err(NoCall::Usage) => return Verdict::Usage,
        Err(NoCall::Memory) => return Verdict::NoMemory,
    };
    match read_all(alloc, files, call.file) {
        Ok(source) => come_to(rt, alloc, &call, source.as_slice()),
        Err(ReadEnd::ReadFault) => Verdict::ReadFault,
        Err(ReadEnd::TooLong) => Verdict::TooLong,
        Err(ReadEnd::Memory) => Verdict::NoMemory,
    }
}
