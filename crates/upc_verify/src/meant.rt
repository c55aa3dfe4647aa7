//! What the threads' sources come to on recorded replies.

ghost use Rattle.std.specs.Prelude.{◌≡◌, ◌<◌, ◌≤◌, length, IfOk};
ghost use Rattle.upc_values.specs.Records as records;
ghost use Rattle.upc_values.specs.Orders.{record_of};
ghost use Rattle.typed_tree.specs.ViewProgram.{view_program};
ghost use Rattle.upc_verify_judge.specs.layer.Meanings.{outcome_of};
ghost use Rattle.upc_verify.specs.Verdicts.{meaning};
ghost use Rattle.upc_verify.specs.code.Meanings.{AreMeant};

use std::alloc::Global;
use typed_tree::Program;
use upc_meaning::{Outcome, replay_whole};
use upc_text::OutOfMemory;
use upc_values::Journal;
use upc_verify_judge::Meant;
use upc_verify_parts::replies_of;

// What a thread's source comes to on the replies of its record.
fn meant_of(
    alloc: Global,
    program: &Program,
    journal: &Journal,
    thread: u32,
) -> Result<Meant, OutOfMemory>
    requires thread { thread < program.now.threads }
    requires strands { length journal.now.strands ≡ program.now.threads }
    requires budget { 1 ≤ journal.now.budget }
    ensures { IfOk result (λ one. outcome_of one
        ≡ meaning (view_program program.now) journal.now.budget thread
        (records.replies_of (record_of journal.now thread))) }
{
    let items = &journal.strands.as_slice()[thread as usize].items;
    let replies = replies_of(alloc, items)?;
    let Outcome {
        actions,
        ticks,
        end,
    } = replay_whole(alloc, program, thread, replies.as_slice(), journal.budget)?;
    Ok(Meant {
        actions,
        ticks,
        end,
    })
}

/// What each thread's source comes to on the replies of its record, with the journal's budget.
pub(crate) fn all_meant(
    alloc: Global,
    program: &Program,
    journal: &Journal,
) -> Result<Vec<Meant>, OutOfMemory>
    requires strands { length journal.now.strands ≡ program.now.threads }
    requires budget { 1 ≤ journal.now.budget }
    ensures { IfOk result (λ list. AreMeant (view_program program.now) journal.now list.items) }
{
    let mut list = Vec::new(alloc);
    for thread in 0..program.threads() {
        let one = meant_of(alloc, program, journal, thread)?;
        list.push(one)?;
    }
    Ok(list)
}
