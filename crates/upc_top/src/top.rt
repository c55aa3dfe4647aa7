//! The top call.

ghost use Rattle.std.specs.Prelude.{map, string_bytes};
ghost use Rattle.upc_top.specs.Verdicts.{reading};
ghost use Rattle.upc_top.specs.Delivery.{writing, Answered, RefusesOtherWords, RefusesLongFiles, IsComplete};
ghost use Rattle.upc_top.specs.Delivery.{SampleReadsNoFile};

use crate::deliver::deliver;
use crate::done::Done;
use crate::judge::judge;
use std::alloc::Global;
use std::sync::Wait;
use std::thread::Threads;
use upc_text::{Gate, Sink, Sources};

/// Reads the words and the file, and does with its program what the mode says: `run` writes what it prints to `out`,
/// `record` the record of its run, `races` the races of its run, `check` writes `ok`, and `layout` where its shared
/// objects lie; `replica` writes what it prints where each thread has its own copy of the shared memory; `sample` reads
/// no file, and runs the source of so many stages; `verify` reads a record too, and writes whether it is sound. A line
/// on any other ending goes to `err`. The status is 0 to 99 where the program ended by
/// itself, and 0 in the modes `check` and `layout` and where a record is sound; 100 where the words are refused; 101
/// where the source is; 102 where a read failed; 103 where a write failed; 104 where memory was wanting; 105 for a run
/// error; 106 for a deadlock; 107 and 108 where a thread reached its limit of ticks or of items; 109 where a run is too
/// long for a text; 110 where the file has more than 1,048,576 bytes, or the record more than 67,108,864; 111 where a
/// record is not sound; 112 where it is no run's text; 113 where it is an old one.
pub fn upc_main<R: Threads + Wait + Sync, S: Sources, O: Sink, E: Sink, G: Gate>(
    rt: &R,
    alloc: Global,
    words: &[String],
    files: &mut S,
    out: &mut O,
    err: &mut E,
    gate: &G,
) -> Done
    // Some verdict, which has its cause, was delivered and handed out.
    ensures answered { Answered (map string_bytes words.now)
        (reading (S.bytes_of files.old) (S.faults files.old) (S.faults files.new))
        (writing (O.taken out.old) (O.taken out.new) (O.faults out.old) (O.faults out.new))
        (writing (E.taken err.old) (E.taken err.new) (E.faults err.old) (E.faults err.new))
        result }
    // Other words are refused.
    ensures words { RefusesOtherWords (map string_bytes words.now) result }
    // A file that is too long is neither run nor refused for what it holds.
    ensures long { RefusesLongFiles (map string_bytes words.now)
        (reading (S.bytes_of files.old) (S.faults files.old) (S.faults files.new))
        result }
    // In mode `sample` no file is read.
    ensures sample { SampleReadsNoFile (map string_bytes words.now) files.old files.new }
    // Where nothing fails, an accepted source is run, with one copy of the shared memory or with many, recorded,
    // searched for races, passed or laid out, and a record is judged on it.
    ensures complete { IsComplete (map string_bytes words.now)
        (reading (S.bytes_of files.old) (S.faults files.old) (S.faults files.new))
        (writing (O.taken out.old) (O.taken out.new) (O.faults out.old) (O.faults out.new))
        (writing (E.taken err.old) (E.taken err.new) (E.faults err.old) (E.faults err.new))
        result }
{
    let verdict = judge(rt, alloc, words, files, gate);
    deliver(alloc, verdict, out, err)
}
