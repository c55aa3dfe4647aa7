//! Whether strands are what their sources come to.

ghost use Rattle.std.specs.Prelude.{◌≡◌, length, MatchOption};
ghost use Rattle.upc_values.specs.Strands.{Conforms};
ghost use Rattle.upc_verify_parts.specs.Parts.{strand_of, FailsFirst, HoldsOfEach};
ghost use Rattle.upc_verify_judge.specs.layer.Meanings.{outcome_in};

use crate::meant::Meant;
use upc_values::Journal;
use upc_verify_parts::conforms;

/// The first thread whose strand is not what its source comes to, none where all are.
pub(crate) fn broken_strands(journal: &Journal, meant: &[Meant]) -> Option<u32>
    requires strands { length journal.now.strands ≡ journal.now.threads }
    requires many { length meant.now ≡ journal.now.threads }
    ensures { MatchOption result
        (HoldsOfEach journal.now.threads (λ t. Conforms (outcome_in meant.now t) (strand_of journal.now t)))
        (FailsFirst journal.now.threads (λ t. Conforms (outcome_in meant.now t) (strand_of journal.now t))) }
{
    let strands = journal.strands.as_slice();
    for thread in 0..journal.threads {
        let one = &meant[thread as usize];
        let strand = &strands[thread as usize];
        if !conforms(one.actions.as_slice(), one.ticks, &one.end, strand) {
            return Some(thread);
        }
    }
    None
}
