//! The record of a run.

ghost use Rattle.upc_values.specs.Consistent.{FollowsBuffers};
ghost use Rattle.upc_top.specs.code.Records.{IsRecordOf};

use crate::verdict::Verdict;
use order_builder::orders;
use run_recorder_text::is_short;
use std::alloc::Global;
use upc_values::Journal;

/// The verdict on a run whose record was asked for: the run with its orders, or that it is too long for a text.
pub fn recorded(alloc: Global, journal: Journal) -> Verdict
    requires { FollowsBuffers journal }
    ensures { IsRecordOf journal result }
{
    if !is_short(&journal) {
        return Verdict::Overlong(journal);
    }
    match orders(alloc, &journal) {
        Ok(orders) => Verdict::Recorded(journal, orders),
        Err(_) => Verdict::NoMemory(Some(journal)),
    }
}
