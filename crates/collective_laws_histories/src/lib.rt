//! What the collective calls of a sound journal leave in its history, but for the values.
#![tactic(auto)]

ghost use Rattle.collective_laws_histories.specs.layer.Laws.{JournalsHold};

/// The history of a sound journal holds the value of each collective call, where its strands go through collective
/// calls as these are defined and take turns, and what the threads do in one call has the call's value.
#[tactic(auto, using(crate::proofs::Laws::journals_hold))]
pub fn journals_hold()
    ensures { JournalsHold }
{}
