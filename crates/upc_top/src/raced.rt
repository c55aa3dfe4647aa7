//! The races of a run.

ghost use Rattle.race_report.specs.Serial.{IsRun};
ghost use Rattle.upc_top.specs.code.Records.{IsReportOf};

use crate::verdict::Verdict;
use race_report_walk::races;
use std::alloc::Global;
use upc_values::Journal;

/// The verdict on a run whose races were asked for: the run with its races.
pub fn raced(alloc: Global, journal: Journal) -> Verdict
    requires { IsRun journal }
    ensures { IsReportOf journal result }
{
    match races(alloc, &journal) {
        Ok(report) => Verdict::Raced(journal, report),
        Err(_) => Verdict::NoMemory(Some(journal)),
    }
}
