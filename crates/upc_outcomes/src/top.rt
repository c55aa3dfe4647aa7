//! The top call.

ghost use Rattle.std.specs.Prelude.{map, string_bytes};
ghost use Rattle.upc_top.specs.Verdicts.{reading};
ghost use Rattle.upc_top.specs.Delivery.{writing};
ghost use Rattle.upc_outcomes.specs.Answers.{Answered, RefusesOtherWords, IsComplete};

use crate::deliver::deliver;
use crate::judge::judge;
use std::alloc::Global;
use std::sync::Wait;
use upc_text::{Sink, Sources};

/// Reads the words and the file, runs its program by each list of picks that the words ask for, and writes to `out`
/// what the runs show, how many show it, and the picks of one that does; or the record of the run by one list. The
/// status is 0 where it does; else it is one of those of `upc_main`, with its line on `err`: 100 where the words are
/// refused; 101 where the source is; 102 where a read failed; 103 where a write failed; 104 where memory was wanting;
/// 109 where a run is too long for a text; 110 where the file has more than 1,048,576 bytes.
pub fn outcomes_main<R: Wait, S: Sources, O: Sink, E: Sink>(
    rt: &R,
    alloc: Global,
    words: &[String],
    files: &mut S,
    out: &mut O,
    err: &mut E,
) -> u8
    // Some verdict, which has its cause, was delivered.
    ensures answered { Answered (map string_bytes words.now)
        (reading (S.bytes_of files.old) (S.faults files.old) (S.faults files.new))
        (writing (O.taken out.old) (O.taken out.new) (O.faults out.old) (O.faults out.new))
        (writing (E.taken err.old) (E.taken err.new) (E.faults err.old) (E.faults err.new))
        result }
    // Other words are refused.
    ensures words { RefusesOtherWords (map string_bytes words.now) result }
    // Where nothing fails, an accepted program is run by the lists that were asked for, and what they show is written.
    ensures complete { IsComplete (map string_bytes words.now)
        (reading (S.bytes_of files.old) (S.faults files.old) (S.faults files.new))
        (writing (O.taken out.old) (O.taken out.new) (O.faults out.old) (O.faults out.new))
        (writing (E.taken err.old) (E.taken err.new) (E.faults err.old) (E.faults err.new))
        result }
{
    let verdict = judge(rt, alloc, words, files);
    deliver(alloc, verdict, out, err)
}
