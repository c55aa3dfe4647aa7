//! The Stalls of a journal.

ghost use Rattle.std.specs.Prelude.{◌≡◌, ◌<◌, [], length, map, option_copied, IfOk, MatchOption};
ghost use Rattle.upc_values.specs.History.{EachBelow};
ghost use Rattle.upc_values.specs.Orders.{record_of};
ghost use Rattle.upc_values.specs.Strands.{StallsStand};
ghost use Rattle.upc_verify_parts.specs.Parts.{Drains, HistoryHolds, StallsHold, FailsFirst, HoldsOfEach};
ghost use Rattle.upc_verify_history.specs.layer.Turns.{AreInTurn};
ghost use Rattle.upc_verify_stalls.specs.code.Points.{waiting_of, waitings};
ghost use Rattle.upc_verify_stalls.specs.code.Watches.{AreDue, StallsWait};
ghost use Rattle.upc_verify_stalls.specs.layer.Wants.{want_of, ArePointsOf};

use crate::points::{Point, points_of};
use crate::walk::{Watch, first_unjustified, look_all, walk};
use memory_history::World;
use order_builder::drain;
use std::alloc::Global;
use upc_text::OutOfMemory;
use upc_values::{Action, Entries, Journal, Listing};

// The Stalls of a thread, after whose record this action is wanted.
fn thread_points<'a>(
    alloc: Global,
    journal: &'a Journal,
    thread: u32,
    want: Option<&'a Action>,
) -> Result<Listing<Point<'a>>, OutOfMemory>
    requires within { thread < length journal.now.strands }
    requires drains { Drains journal.now thread }
    requires stalls { StallsStand (option_copied want) (record_of journal.now thread) }
    ensures { IfOk result (λ points. map waiting_of points
        ≡ waitings thread (option_copied want.entry) [] (record_of journal.now thread)) }
{
    let items = &journal.strands.as_slice()[thread as usize].items;
    match drain(alloc, thread, items)? {
        Some(entries) => points_of(alloc, items, want, &entries),
        None => unreachable!(),
    }
}

// The Stalls of each thread, by number.
fn all_points<'a>(
    alloc: Global,
    journal: &'a Journal,
    wants: &[Option<&'a Action>],
) -> Result<Vec<Listing<Point<'a>>>, OutOfMemory>
    requires strands { length journal.now.strands ≡ journal.now.threads }
    requires wants { length wants.now ≡ journal.now.threads }
    requires drains { HoldsOfEach journal.now.threads (Drains journal.now) }
    requires stalls { HoldsOfEach journal.now.threads (λ t.
        StallsStand (want_of wants.now t) (record_of journal.now t)) }
    ensures { IfOk result (λ points. ArePointsOf journal.now wants.now points.items) }
{
    let mut points = Vec::new(alloc);
    for thread in 0..journal.threads {
        let found = thread_points(alloc, journal, thread, wants[thread as usize])?;
        points.push(found)?;
    }
    Ok(points)
}

// The first thread with a Stall that is not justified, none where all are: looks at all before each entry of a lawful
// history, and after the last one.
fn first_broken(
    world: &mut World,
    points: &[Listing<Point>],
    watches: &mut [Watch],
    history: &Entries,
) -> Result<Option<u32>, OutOfMemory>
    requires many { length points.now ≡ world.old.0.threads }
    requires empty { world.old.1 ≡ [] }
    requires below { EachBelow world.old.0.threads history.now }
    requires turns { AreInTurn history.now }
    requires lawful { HistoryHolds world.old.0 history.now }
    requires due { AreDue world.old.0 points.now [] watches.old }
    ensures { IfOk result (λ broken. MatchOption broken
        (HoldsOfEach world.old.0.threads (StallsWait world.old.0 history.now points.now))
        (FailsFirst world.old.0.threads (StallsWait world.old.0 history.now points.now))) }
{
    walk(world, points, watches, history)?;
    look_all(world, points, watches);
    Ok(first_unjustified(world.threads(), points, watches))
}

/// The first thread with a Stall that is not justified, none where all are, from a memory that has no entry. The
/// history is lawful and in turn, each thread's record emits its entries, and its Stalls stand where they may, with
/// this action wanted after it.
pub fn broken_stalls(
    alloc: Global,
    world: &mut World,
    journal: &Journal,
    wants: &[Option<&Action>],
) -> Result<Option<u32>, OutOfMemory>
    requires empty { world.old.1 ≡ [] }
    requires threads { journal.now.threads ≡ world.old.0.threads }
    requires strands { length journal.now.strands ≡ journal.now.threads }
    requires wants { length wants.now ≡ journal.now.threads }
    requires below { EachBelow journal.now.threads journal.now.history }
    requires turns { AreInTurn journal.now.history }
    requires lawful { HistoryHolds world.old.0 journal.now.history }
    requires drains { HoldsOfEach journal.now.threads (Drains journal.now) }
    requires stalls { HoldsOfEach journal.now.threads (λ t.
        StallsStand (want_of wants.now t) (record_of journal.now t)) }
    ensures { IfOk result (λ broken. MatchOption broken
        (HoldsOfEach journal.now.threads (λ t. StallsHold world.old.0 journal.now (want_of wants.now t) t))
        (FailsFirst journal.now.threads (λ t. StallsHold world.old.0 journal.now (want_of wants.now t) t))) }
{
    let points = all_points(alloc, journal, wants)?;
    let fresh = Watch {
        passed: 0,
        justified: 0,
    };
    let mut watches = vec![in alloc; fresh; points.len()]?;
    first_broken(
        world,
        points.as_slice(),
        watches.as_mut_slice(),
        &journal.history,
    )
}
