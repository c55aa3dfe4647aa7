//! The verdict of the top call, before it is written.

ghost use Rattle.std.specs.Prelude.{ℕ, List};
ghost use Rattle.upc_top_words.specs.Values.{Asked};
ghost use Rattle.upc_top.specs.Sources.{StopsReading};
ghost use Rattle.upc_top.specs.Verdicts.{Reading, ComesFrom};

use race_report_walk::Report;
use replica_space::ReplicaJournal;
use typed_tree::Program;
use upc_text::{Refusal, Stop};
use upc_top_judging::Judgment;
use upc_values::{Journal, Orders};

/// The verdict of the top call.
#[derive(Drop)]
pub enum Verdict {
    /// The words are refused.
    Usage,
    /// A read of the file or of the record failed.
    ReadFault,
    /// The file has more bytes than a source may have, or the record more than a record may have.
    TooLong,
    /// The source is refused.
    Refused(Refusal),
    /// The source ran.
    Ran(Journal),
    /// The source ran, with these orders, and its record was asked for.
    Recorded(Journal, Orders),
    /// The source ran, its record was asked for, and is too long for a text.
    Overlong(Journal),
    /// The source ran, and its races were asked for: these.
    Raced(Journal, Report),
    /// The source ran on a memory in which each thread has its own copy.
    Replicated(ReplicaJournal),
    /// It ran so, and memory was wanting for what it prints.
    Unwritten(ReplicaJournal),
    /// The source is accepted, and this was found of the record.
    Judged(Judgment),
    /// The source is accepted, and no more was asked.
    Passed,
    /// The source is accepted as this program, whose layout was asked for.
    Laid(Program),
    /// Memory was wanting, perhaps after a run.
    NoMemory(Option<Journal>),
}

/// The verdict on a source that is refused, or for which memory was wanting.
pub fn stopped(stop: Stop) -> Verdict
    ensures { (r : Reading) (a : Asked) (bytes : List ℕ) → StopsReading a.threads bytes stop
        → ComesFrom r a bytes result }
{
    match stop {
        Stop::Refused(refusal) => Verdict::Refused(refusal),
        Stop::Memory => Verdict::NoMemory(None),
    }
}
