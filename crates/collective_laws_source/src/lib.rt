//! Every thread of every program goes through collective calls as their definition says.
#![tactic(auto)]

ghost use Rattle.typed_tree.specs.Programs.{Checked};
ghost use Rattle.collective_laws_source.specs.code.Laws.{AllGoTogether};

/// Every thread, from each collective call from 5 to 12 that it begins, takes the steps of that call, up to its value
/// or to the thread's end (UPC 7.3).
#[tactic(auto, using(crate::proofs::Together::all_go_together))]
pub fn collective_calls_are_gone_through()
    ensures { (program : Checked) → AllGoTogether program }
{}
