//! The verdict on a record.

ghost use Rattle.std.specs.Prelude.{◌≡◌, ◌≤◌, length};
ghost use Rattle.typed_tree.specs.ViewProgram.{view_program};
ghost use Rattle.upc_top_words.specs.declared.call.Mode.TheVariants.{Verify};
ghost use Rattle.upc_top_words.specs.Values.{IsInRange, IsAllowed, view_call};
ghost use Rattle.upc_top.specs.Verdicts.{reading, ComesFrom};
ghost use Rattle.upc_top.specs.code.Records.{IsJudgmentOf};

use crate::front::read_source;
use crate::verdict::{Verdict, stopped};
use std::alloc::Global;
use typed_tree::Program;
use upc_text::{ReadEnd, Sources, read_up_to};
use upc_top_judging::judge_record;
use upc_top_words::Call;

// The most bytes that a record may have.
const RECORD_LIMIT: u64 = 67_108_864;

// The verdict on the bytes of a record.
fn judged(alloc: Global, program: &Program, bytes: &[u8]) -> Verdict
    requires { 1 ≤ program.now.threads }
    ensures { IsJudgmentOf (view_program program.now) bytes.now result }
{
    match judge_record(alloc, program, bytes) {
        Ok(judgment) => Verdict::Judged(judgment),
        Err(_) => Verdict::NoMemory(None),
    }
}

/// The verdict on the record that the words name, for a source. It is read where the source is accepted.
pub fn judge_source<S: Sources>(
    alloc: Global,
    call: &Call<'_>,
    bytes: &[u8],
    files: &mut S,
) -> Verdict
    requires mode { call.now.mode ≡ Verify }
    requires range { IsInRange (view_call call.now) }
    requires allowed { IsAllowed (view_call call.now) }
    requires short { length bytes.now ≤ 1048576 }
    ensures { ComesFrom (reading (S.bytes_of files.old) (S.faults files.old) (S.faults files.new))
        (view_call call.now) bytes.now result }
{
    let Some(name) = call.recording else {
        unreachable!()
    };
    let program = match read_source(alloc, call.threads, bytes) {
        Ok(program) => program,
        Err(stop) => return stopped(stop),
    };
    match read_up_to(alloc, files, name, RECORD_LIMIT) {
        Ok(record) => judged(alloc, &program, record.as_slice()),
        Err(ReadEnd::ReadFault) => Verdict::ReadFault,
        Err(ReadEnd::TooLong) => Verdict::TooLong,
        Err(ReadEnd::Memory) => Verdict::NoMemory(None),
    }
}
