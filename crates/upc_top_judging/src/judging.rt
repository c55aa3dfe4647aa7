//! From the bytes of a record to what is found of it.

ghost use Rattle.std.specs.Prelude.{◌≤◌, IfOk};
ghost use Rattle.typed_tree.specs.ViewProgram.{view_program};
ghost use Rattle.upc_top_judging.specs.Judgments.{IsJudgment};
ghost use Rattle.upc_top_judging.specs.code.Runs.{IsOfRun};
ghost use Rattle.upc_top_judging.specs.code.Once.{OneJudgment};

use crate::judgment::Judgment;
use run_recorder::{ReadRecord, read_record};
use std::alloc::Global;
use typed_tree::Program;
use upc_text::OutOfMemory;
use upc_values::{Journal, Orders};
use upc_verify::{sound_is_a_sound_run, verify};

// The verdict on a run of version 2.
fn judge_run(
    alloc: Global,
    program: &Program,
    journal: &Journal,
    orders: &Orders,
) -> Result<Judgment, OutOfMemory>
    requires { 1 ≤ program.now.threads }
    ensures { IfOk result (IsOfRun (view_program program.now) journal.now orders.now) }
{
    sound_is_a_sound_run();
    let verdict = verify(alloc, program, journal, orders)?;
    Ok(Judgment::Judged(verdict))
}

/// What is found of the bytes of a record, for a program.
pub fn judge_record(alloc: Global, program: &Program, bytes: &[u8]) -> Result<Judgment, OutOfMemory>
    requires { 1 ≤ program.now.threads }
    ensures { IfOk result (IsJudgment (view_program program.now) bytes.now) }
{
    match read_record(alloc, bytes) {
        Ok((version, journal, orders)) => {
            if version == 1 {
                return Ok(Judgment::OldText);
            }
            judge_run(alloc, program, &journal, &orders)
        }
        Err(ReadRecord::Bad(place)) => Ok(Judgment::BadText(place)),
        Err(ReadRecord::Memory) => Err(OutOfMemory),
    }
}

/// A law: of the bytes of a record nothing else can be found, the place in a bad one apart.
pub fn one_judgment()
    ensures { OneJudgment }
{}
