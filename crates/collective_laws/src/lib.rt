//! What the collective calls of every run of a program leave in its history.
#![tactic(auto)]

ghost use Rattle.collective_laws.specs.code.Laws.{CollectivesHoldIn};
ghost use Rattle.typed_tree.specs.Programs.{Checked};

/// In every sound journal of a program that begins with an opening, with a budget of at least one tick, each collective
/// call from 5 to 12 that all threads have left, synchronised at both ends and with its destination apart, has left its
/// value in the destination (UPC 7.3).
#[tactic(auto, using(crate::proofs::Laws::collectives_hold))]
pub fn collectives_hold()
    ensures { (program : Checked) → CollectivesHoldIn program }
{}
