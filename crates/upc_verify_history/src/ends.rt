//! Whether a strand's end has a cause.

ghost use Rattle.std.specs.Prelude.{◌≡◌, ◌<◌, ◌↔◌, length, IsTrue};
ghost use Rattle.upc_values.specs.Ends.{SharedEnd};
ghost use Rattle.upc_values.specs.Orders.{record_of};
ghost use Rattle.upc_values.specs.Outcomes.{wanted};
ghost use Rattle.upc_values.specs.Strands.{StallsStand};
ghost use Rattle.upc_verify_parts.specs.Parts.{EndHolds};
ghost use Rattle.upc_verify_history.specs.code.Waiting.{MayWaitAt};

use crate::waiting::has_reply;
use memory_history::World;
use upc_values::{End, Journal, ToldEnd};
use upc_verify_parts::{all_settle, another_stops, has_own_end};

// Whether the journal allows the end of the thread's strand: where it is Halted, another strand ends the run; where it
// is Deadlocked, its action has no lawful reply after the whole history, and every strand is Ended or Deadlocked.
fn has_shared_end(world: &World, journal: &Journal, thread: u32, end: &End) -> bool
    requires below { thread < world.now.0.threads }
    requires history { world.now.1 ≡ journal.now.history }
    requires waits { MayWaitAt end.now }
    ensures { IsTrue result ↔ SharedEnd world.now.0 journal.now thread end.now }
{
    match end {
        End::Halted => another_stops(thread as usize, journal.strands.as_slice()),
        End::Deadlocked(action) => {
            !has_reply(world, thread, action) && all_settle(journal.strands.as_slice())
        }
        _ => true,
    }
}

/// Whether the thread's record is short enough and its end has a cause, where its source comes to this end, its Stalls
/// stand where they may, and the memory has the journal's history.
pub fn end_holds(world: &World, journal: &Journal, thread: u32, told: &ToldEnd) -> bool
    requires below { thread < world.now.0.threads }
    requires within { thread < length journal.now.strands }
    requires history { world.now.1 ≡ journal.now.history }
    requires stalls { StallsStand (wanted told.now) (record_of journal.now thread) }
    ensures { IsTrue result ↔ EndHolds world.now.0 journal.now told.now thread }
{
    let strand = &journal.strands.as_slice()[thread as usize];
    if strand.items.len() as u64 > journal.actions {
        return false;
    }
    if !has_own_end(journal.actions, told, &strand.items, &strand.end) {
        return false;
    }
    has_shared_end(world, journal, thread, &strand.end)
}
