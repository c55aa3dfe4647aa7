//! A walk over a history that looks at the Stalls of all threads.

ghost use Rattle.std.specs.Prelude.{◌≡◌, ◌<◌, ◌↔◌, List, [], ◌∷◌, ◌++◌, None, true, length, IsTrue, OnOk, MatchOption};
ghost use Rattle.upc_values.specs.declared.journal.Entry.{Entry};
ghost use Rattle.upc_values.specs.Openings.{Opening};
ghost use Rattle.upc_values.specs.History.{reply, EachBelow};
ghost use Rattle.upc_values.specs.Strands.{may_wait};
ghost use Rattle.memory_history.specs.layer.Turns.{takes_turn};
ghost use Rattle.upc_verify_parts.specs.Parts.{FailsFirst, HistoryHolds, HoldsOfEach};
ghost use Rattle.upc_verify_history.specs.layer.Lawful.{IsLawful};
ghost use Rattle.upc_verify_history.specs.layer.Turns.{AreInTurn};
ghost use Rattle.upc_verify_stalls.specs.declared.points.Point.{Point};
ghost use Rattle.upc_verify_stalls.specs.code.Watches.{IsDone, IsDue, IsLooked, AreDue, AreLooked};

use crate::points::Point;
use memory_history::World;
use upc_text::OutOfMemory;
use upc_values::{Entries, Entry, Listing};
use upc_verify_history::{goes_on, has_reply};

/// How far a walk has come with a thread: how many of its entries it has passed, and how many of its Stalls it has
/// found justified.
#[derive(Clone, Copy)]
pub struct Watch {
    pub passed: usize,
    pub justified: usize,
}

// Whether a Stall is justified by what the history is now.
fn is_justified(world: &World, thread: u32, point: Point, passed: usize) -> bool
    requires below { thread < world.now.0.threads }
    requires waits { may_wait point.action.now ≡ true }
    ensures { IsTrue result ↔ ((point.entry.entries ≡ passed)
        × (reply world.now.0 world.now.1 thread point.entry.action.now ≡ None)) }
{
    point.entries == passed && !has_reply(world, thread, point.action)
}

// Looks whether the first Stall of a thread that is not justified yet is so now.
fn look(world: &World, thread: u32, points: &[Point], watch: Watch) -> Watch
    requires below { thread < world.now.0.threads }
    requires due { IsDue world.now.0 thread points.now world.now.1 watch }
    ensures { IsLooked world.now.0 thread points.now world.now.1 result }
{
    if watch.justified >= points.len() {
        return watch;
    }
    let point = points[watch.justified];
    if !is_justified(world, thread, point, watch.passed) {
        return watch;
    }
    Watch {
        passed: watch.passed,
        justified: watch.justified + 1,
    }
}

/// Looks for each thread whether its first Stall that is not justified yet is so now.
pub fn look_all(world: &World, points: &[Listing<Point>], watches: &mut [Watch])
    requires many { length points.now ≡ world.now.0.threads }
    requires due { AreDue world.now.0 points.now world.now.1 watches.old }
    ensures { AreLooked world.now.0 points.now world.now.1 watches.new }
{
    for thread in 0..world.threads() {
        let number = thread as usize;
        let watch = look(world, thread, points[number].as_slice(), watches[number]);
        watches[number] = watch;
    }
}

// The next entry of the history is passed.
fn pass(watches: &mut [Watch], entry: &Entry) -> Result<(), OutOfMemory>
    requires below { entry.now.thread < length watches.old }
    ensures { (o : Opening) (points : List (List Point)) (front : List Entry) → AreLooked o points front watches.old
        → OnOk result (AreDue o points (front ++ entry.now ∷ []) watches.new) }
{
    let thread = entry.thread as usize;
    let watch = watches[thread];
    let Some(passed) = watch.passed.checked_add(1) else {
        return Err(OutOfMemory);
    };
    watches[thread] = Watch {
        passed,
        justified: watch.justified,
    };
    Ok(())
}

// Looks for each thread, and goes on by the next entry.
fn step(
    world: &mut World,
    points: &[Listing<Point>],
    watches: &mut [Watch],
    entry: &Entry,
) -> Result<(), OutOfMemory>
    requires many { length points.now ≡ world.old.0.threads }
    requires below { entry.now.thread < world.old.0.threads }
    requires turn { takes_turn world.old.1 entry.now.thread entry.now.action ≡ true }
    requires lawful { IsLawful world.old.0 world.old.1 entry.now }
    requires due { AreDue world.old.0 points.now world.old.1 watches.old }
    ensures grown { OnOk result (world.new.1 ≡ world.old.1 ++ entry.now ∷ []) }
    ensures opening { world.new.0 ≡ world.old.0 }
    ensures due { OnOk result (AreDue world.new.0 points.now world.new.1 watches.new) }
{
    look_all(world, points, watches);
    goes_on(world, entry)?;
    pass(watches, entry)
}

/// Walks over a lawful history, from a memory that has no entry.
pub fn walk(
    world: &mut World,
    points: &[Listing<Point>],
    watches: &mut [Watch],
    history: &Entries,
) -> Result<(), OutOfMemory>
    requires many { length points.now ≡ world.old.0.threads }
    requires empty { world.old.1 ≡ [] }
    requires below { EachBelow world.old.0.threads history.now }
    requires turns { AreInTurn history.now }
    requires lawful { HistoryHolds world.old.0 history.now }
    requires due { AreDue world.old.0 points.now [] watches.old }
    ensures whole { OnOk result (world.new.1 ≡ history.now) }
    ensures opening { world.new.0 ≡ world.old.0 }
    ensures due { OnOk result (AreDue world.new.0 points.now world.new.1 watches.new) }
{
    for entry in history.iter() {
        step(world, points, watches, entry)?;
    }
    Ok(())
}

/// The first thread with a Stall that was not found justified.
pub fn first_unjustified(threads: u32, points: &[Listing<Point>], watches: &[Watch]) -> Option<u32>
    requires many { length points.now ≡ threads }
    requires watches { length watches.now ≡ threads }
    ensures { MatchOption result (HoldsOfEach threads (IsDone points.now watches.now))
        (FailsFirst threads (IsDone points.now watches.now)) }
{
    for thread in 0..threads {
        let number = thread as usize;
        if watches[number].justified < points[number].len() {
            return Some(thread);
        }
    }
    None
}
