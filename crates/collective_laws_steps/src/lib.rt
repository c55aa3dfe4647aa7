//! What the steps of all threads in a collective call leave in its destination.
#![tactic(auto)]

ghost use Rattle.collective_laws_words.specs.layer.Interface.{ValuesHold, WorkStays};

/// After a collective call whose work all threads have done its destination holds the call's value, where what they
/// read is what the cells held before it.
pub fn values_hold()
    ensures { ValuesHold }
{}

/// Each step of a thread's work in a collective call writes to the destination, or reads the source or the permutation.
pub fn work_stays()
    ensures { WorkStays }
{}
