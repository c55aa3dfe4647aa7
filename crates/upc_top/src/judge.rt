//! From the words to the verdict of the top call.

ghost use Rattle.std.specs.Prelude.{◌≡◌, ◌≤◌, true, length, map, string_bytes};
ghost use Rattle.typed_tree.specs.ViewProgram.{view_program};
ghost use Rattle.upc_values.specs.Consistent.{FollowsBuffers};
ghost use Rattle.race_report.specs.Serial.{IsRun};
ghost use Rattle.upc_top_words.specs.declared.call.Mode.TheVariants.{Sample};
ghost use Rattle.upc_top_words.specs.Values.{IsInRange, view_call};
ghost use Rattle.upc_top_words.specs.Values.{IsAllowed};
ghost use Rattle.upc_top.specs.Words.{runs};
ghost use Rattle.upc_top.specs.Sources.{IsAccepted};
ghost use Rattle.upc_top.specs.Verdicts.{Reading, reading, Caused, ComesFrom};
ghost use Rattle.upc_top.specs.Delivery.{SampleReadsNoFile};
ghost use Rattle.upc_top.specs.code.Records.{IsShown};

use crate::front::{pass_source, read_source};
use crate::judged::judge_source;
use crate::raced::raced;
use crate::record::recorded;
use crate::replicated::run_replicated;
use crate::source::source_of;
use crate::verdict::{Verdict, stopped};
use program_runs::run_program;
use std::alloc::Global;
use std::sync::Wait;
use std::thread::Threads;
use typed_tree::Program;
use upc_task::Limits;
use upc_text::{Gate, ReadEnd, Sources};
use upc_top_words::{Call, Mode, NoCall, read_words};
use upc_values::Journal;

// The verdict on a run: its record or its races where these were asked for, else what it prints.
fn shown(alloc: Global, mode: Mode, journal: Journal) -> Verdict
    requires follows { FollowsBuffers journal }
    requires run { IsRun journal }
    requires runs { runs mode ≡ true }
    ensures { IsShown mode journal result }
{
    match mode {
        Mode::Record => recorded(alloc, journal),
        Mode::Races => raced(alloc, journal),
        _ => Verdict::Ran(journal),
    }
}

// Runs a source that is accepted.
fn run_accepted<R: Threads + Wait + Sync, G: Gate>(
    rt: &R,
    alloc: Global,
    call: &Call<'_>,
    bytes: &[u8],
    program: &Program,
    gate: &G,
) -> Verdict
    requires mode { runs call.now.mode ≡ true }
    requires range { IsInRange (view_call call.now) }
    requires allowed { IsAllowed (view_call call.now) }
    requires accepted { IsAccepted call.now.threads bytes.now (view_program program.now) }
    ensures { (r : Reading) → ComesFrom r (view_call call.now) bytes.now result }
{
    let limits = Limits {
        threads: call.threads,
        budget: call.budget,
        actions: call.actions,
    };
    match run_program(rt, alloc, program, limits, gate) {
        Ok(journal) => shown(alloc, call.mode, journal),
        Err(_) => Verdict::NoMemory(None),
    }
}

// The verdict on a source, and in mode `verify` on the record. Where no more is asked than whether the source is
// accepted, no program is made.
fn come_to<R: Threads + Wait + Sync, S: Sources, G: Gate>(
    rt: &R,
    alloc: Global,
    call: &Call<'_>,
    bytes: &[u8],
    files: &mut S,
    gate: &G,
) -> Verdict
    requires range { IsInRange (view_call call.now) }
    requires allowed { IsAllowed (view_call call.now) }
    requires short { length bytes.now ≤ 1048576 }
    ensures comes { ComesFrom (reading (S.bytes_of files.old) (S.faults files.old) (S.faults files.new))
        (view_call call.now) bytes.now result }
    ensures sample { call.now.mode ≡ Sample → files.new ≡ files.old }
{
    match call.mode {
        Mode::Check => match pass_source(alloc, call.threads, bytes) {
            Ok(()) => Verdict::Passed,
            Err(stop) => stopped(stop),
        },
        Mode::Layout => match read_source(alloc, call.threads, bytes) {
            Ok(program) => Verdict::Laid(program),
            Err(stop) => stopped(stop),
        },
        Mode::Verify => judge_source(alloc, call, bytes, files),
        Mode::Replica => run_replicated(rt, alloc, call, bytes, gate),
        _ => match read_source(alloc, call.threads, bytes) {
            Ok(program) => run_accepted(rt, alloc, call, bytes, &program, gate),
            Err(stop) => stopped(stop),
        },
    }
}

/// The verdict on the words, the file and the record.
#[tactic(auto, using(crate::proofs::Endings::no_file_read))]
pub fn judge<R: Threads + Wait + Sync, S: Sources, G: Gate>(
    rt: &R,
    alloc: Global,
    words: &[String],
    files: &mut S,
    gate: &G,
) -> Verdict
    ensures caused { Caused (map string_bytes words.now)
        (reading (S.bytes_of files.old) (S.faults files.old) (S.faults files.new))
        result }
    ensures sample { SampleReadsNoFile (map string_bytes words.now) files.old files.new }
{
    let call = match read_words(alloc, words) {
        Ok(call) => call,
        Err(NoCall::Usage) => return Verdict::Usage,
        Err(NoCall::Memory) => return Verdict::NoMemory(None),
    };
    match source_of(alloc, &call, files) {
        Ok(source) => come_to(rt, alloc, &call, source.as_slice(), files, gate),
        Err(ReadEnd::ReadFault) => Verdict::ReadFault,
        Err(ReadEnd::TooLong) => Verdict::TooLong,
        Err(ReadEnd::Memory) => Verdict::NoMemory(None),
    }
}
