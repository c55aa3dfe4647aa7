//! Whether ends have their causes.

ghost use Rattle.std.specs.Prelude.{◌≡◌, length, MatchOption};
ghost use Rattle.upc_values.specs.Outcomes.{wanted};
ghost use Rattle.upc_values.specs.Orders.{record_of};
ghost use Rattle.upc_values.specs.Strands.{StallsStand};
ghost use Rattle.upc_verify_parts.specs.Parts.{EndHolds, FailsFirst, HoldsOfEach};
ghost use Rattle.upc_verify_judge.specs.layer.Meanings.{outcome_in};

use crate::meant::Meant;
use memory_history::World;
use upc_values::Journal;
use upc_verify_history::end_holds;

/// The first thread whose record is too long or whose end has no cause, none where there is no such thread. The Stalls
/// stand where they may, and the memory has the journal's history.
pub(crate) fn broken_ends(world: &World, journal: &Journal, meant: &[Meant]) -> Option<u32>
    requires threads { journal.now.threads ≡ world.now.0.threads }
    requires strands { length journal.now.strands ≡ journal.now.threads }
    requires many { length meant.now ≡ journal.now.threads }
    requires history { world.now.1 ≡ journal.now.history }
    requires stalls { HoldsOfEach journal.now.threads (λ t.
        StallsStand (wanted (outcome_in meant.now t).«end») (record_of journal.now t)) }
    ensures { MatchOption result
        (HoldsOfEach journal.now.threads (λ t.
        EndHolds world.now.0 journal.now (outcome_in meant.now t).«end» t))
        (FailsFirst journal.now.threads (λ t.
        EndHolds world.now.0 journal.now (outcome_in meant.now t).«end» t)) }
{
    for thread in 0..journal.threads {
        let one = &meant[thread as usize];
        if !end_holds(world, journal, thread, &one.end) {
            return Some(thread);
        }
    }
    None
}
