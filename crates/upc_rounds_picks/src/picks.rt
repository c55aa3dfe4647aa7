//! Runs on one thread of the machine, in an order that picks choose.

ghost use Rattle.std.specs.Prelude.{ℕ, ◌≡◌, ◌<◌, ◌≤◌, ◌*◌, true, false, IfOk, IfSome, IsNone, length};
ghost use Rattle.upc_values.specs.Sound.{IsSound};
ghost use Rattle.upc_values.specs.Ends.{AreSpent};
ghost use Rattle.upc_values.specs.Waits.{WaitsFollow};
ghost use Rattle.upc_values.specs.Locks.{LocksExclude};
ghost use Rattle.stack_code_laws.specs.layer.Asking.{IsCodeFor};
ghost use Rattle.turn_cell.specs.layer.Seats.{id_of, started};
ghost use Rattle.upc_task.specs.layer.Sources.{Outcomes, GivesOutcomes};
ghost use Rattle.upc_rounds.specs.layer.Openings.{opening_of};
ghost use Rattle.upc_rounds_teams.specs.layer.Course.{Obeys, ArePicked, IsCourse};
ghost use Rattle.upc_rounds_teams.specs.layer.Runs.{AreSame, NoneStops, IsChosen, EndsOut, GoesPicked, open_among};
ghost use Rattle.upc_rounds_teams.specs.layer.Runs.{moment_of};
ghost use Rattle.upc_rounds_teams.specs.layer.Teams.{GoesOn, StaysCrew, IsCrew, IsDone, workers_of, seen_among};

use crate::turns::{finish_all, round_in_turn, turn};
use memory_history::World;
use stack_code::Code;
use std::alloc::{AllocError as OutOfMemory, Global};
use std::sync::Wait;
use turn_cell::TurnCell;
use typed_tree::Program;
use upc_rounds::begin::{begin, make_all};
use upc_rounds::closing::close_all;
use upc_rounds_teams::ends::{all_ended, halt_all, is_open, lock_all, none_goes, stopped};
use upc_rounds_teams::place::Place;
use upc_task::Limits;
use upc_values::{Journal, Listing};

// Rounds by number of thread, until the run is over.
fn rounds<R: Wait>(
    rt: &R,
    alloc: Global,
    code: &Code,
    places: &mut [Place],
    cell: &TurnCell<World>,
) -> Result<(), OutOfMemory>
    requires some { 0 < length places.old }
    requires running { GoesOn (id_of cell.now) (started cell.now).0 code.now places.old }
    requires quiet { NoneStops (workers_of places.old) }
    ensures over { IfOk result (λ _. (f : Outcomes)
        → IsCrew (id_of cell.now) (started cell.now).0 code.now f places.old
        → IsDone (id_of cell.now) (started cell.now).0 code.now f places.new) }
    ensures same { IfOk result (λ _. AreSame (workers_of places.old) (workers_of places.new)) }
    ensures out { IfOk result (λ _. EndsOut
        ((started cell.now).0, seen_among places.old) (workers_of places.old)
        ((started cell.now).0, seen_among places.new) (workers_of places.new)) }
{
    for _ in rt.forever() {
        round_in_turn(rt, code, places, cell)?;
        if stopped(places).is_some() {
            halt_all(places);
            return Ok(());
        }
        if all_ended(places) {
            return Ok(());
        }
        let none = none_goes(rt, alloc, places, cell)?;
        if none {
            lock_all(alloc, places)?;
            return Ok(());
        }
    }
    unreachable!()
}

// After the picks: rounds; but where an end has ended the run already, none is begun, and each task goes on to its
// rest.
fn go_out<R: Wait>(
    rt: &R,
    alloc: Global,
    code: &Code,
    places: &mut [Place],
    cell: &TurnCell<World>,
) -> Result<(), OutOfMemory>
    requires some { 0 < length places.old }
    requires running { GoesOn (id_of cell.now) (started cell.now).0 code.now places.old }
    ensures over { IfOk result (λ _. (f : Outcomes)
        → IsCrew (id_of cell.now) (started cell.now).0 code.now f places.old
        → IsDone (id_of cell.now) (started cell.now).0 code.now f places.new) }
    ensures same { IfOk result (λ _. AreSame (workers_of places.old) (workers_of places.new)) }
    ensures out { IfOk result (λ _. EndsOut
        ((started cell.now).0, seen_among places.old) (workers_of places.old)
        ((started cell.now).0, seen_among places.new) (workers_of places.new)) }
{
    if stopped(places).is_some() {
        finish_all(rt, code, places, cell)?;
        halt_all(places);
        return Ok(());
    }
    rounds(rt, alloc, code, places, cell)?;
    Ok(())
}

fn count_open(places: &[Place]) -> usize
    ensures { result ≡ open_among (workers_of places.now) }
{
    let mut live = 0usize;
    for at in 0..places.len() {
        if is_open(places, at) {
            live += 1;
        }
    }
    live
}

// The task without an end that a pick chooses, none where all have their ends.
fn chosen(places: &[Place], pick: u32) -> Option<usize>
    ensures none { IsNone result → open_among (workers_of places.now) ≡ 0 }
    ensures some { IfSome result (λ at. IsChosen (workers_of places.now) pick at) }
{
    let live = count_open(places);
    if live == 0 {
        return None;
    }
    let mut left = pick as usize % live;
    for at in 0..places.len() {
        if is_open(places, at) {
            if left == 0 {
                return Some(at);
            }
            left -= 1;
        }
    }
    unreachable!()
}

// One step of the task that a pick chooses, and whether there is one.
fn obey<R: Wait>(
    rt: &R,
    code: &Code,
    places: &mut [Place],
    cell: &TurnCell<World>,
    pick: u32,
) -> Result<bool, OutOfMemory>
    requires running { GoesOn (id_of cell.now) (started cell.now).0 code.now places.old }
    requires quiet { NoneStops (workers_of places.old) }
    ensures running { IfOk result (λ _.
        StaysCrew (id_of cell.now) (started cell.now).0 code.now places.old places.new) }
    ensures same { IfOk result (λ _. AreSame (workers_of places.old) (workers_of places.new)) }
    ensures yes { IfOk result (λ moved. moved ≡ true → Obeys pick
        (moment_of ((started cell.now).0, seen_among places.old) (workers_of places.old))
        (moment_of ((started cell.now).0, seen_among places.new) (workers_of places.new))) }
    ensures no { IfOk result (λ moved. moved ≡ false
        → (open_among (workers_of places.old) ≡ 0) × (places.new ≡ places.old)) }
{
    let Some(at) = chosen(places, pick) else {
        return Ok(false);
    };
    turn(rt, code, places, cell, at)?;
    Ok(true)
}

// One step for each pick, while no end ends the run.
fn pick_all<R: Wait>(
    rt: &R,
    code: &Code,
    places: &mut [Place],
    cell: &TurnCell<World>,
    picks: &[u32],
) -> Result<(), OutOfMemory>
    requires { GoesOn (id_of cell.now) (started cell.now).0 code.now places.old }
    ensures running { IfOk result (λ _.
        StaysCrew (id_of cell.now) (started cell.now).0 code.now places.old places.new) }
    ensures same { IfOk result (λ _. AreSame (workers_of places.old) (workers_of places.new)) }
    ensures picked { IfOk result (λ _. ArePicked picks.now
        (moment_of ((started cell.now).0, seen_among places.old) (workers_of places.old))
        (moment_of ((started cell.now).0, seen_among places.new) (workers_of places.new))) }
{
    for pick in picks {
        if stopped(places).is_some() {
            return Ok(());
        }
        let moved = obey(rt, code, places, cell, *pick)?;
        if !moved {
            return Ok(());
        }
    }
    Ok(())
}

// The picks, and what follows them.
fn go_all<R: Wait>(
    rt: &R,
    alloc: Global,
    code: &Code,
    places: &mut [Place],
    cell: &TurnCell<World>,
    picks: &[u32],
) -> Result<(), OutOfMemory>
    requires some { 0 < length places.old }
    requires running { GoesOn (id_of cell.now) (started cell.now).0 code.now places.old }
    ensures over { IfOk result (λ _. (f : Outcomes)
        → IsCrew (id_of cell.now) (started cell.now).0 code.now f places.old
        → IsDone (id_of cell.now) (started cell.now).0 code.now f places.new) }
    ensures same { IfOk result (λ _. AreSame (workers_of places.old) (workers_of places.new)) }
    ensures out { IfOk result (λ _. GoesPicked picks.now
        ((started cell.now).0, seen_among places.old) (workers_of places.old)
        ((started cell.now).0, seen_among places.new) (workers_of places.new)) }
{
    pick_all(rt, code, places, cell, picks)?;
    go_out(rt, alloc, code, places, cell)?;
    Ok(())
}

/// Runs code on one thread of the machine, in an order that the picks choose; the code has the program's threads and
/// shapes and names no shared object but the program's declared ones. Each pick is taken
/// modulo the number of threads without an end, and chooses among them by number; the chosen one is given one step.
/// Once an end ends the run, or where all threads have ended, the other picks are passed over. Then rounds go by number
/// of thread: in each, every thread without an end goes on to a Beat, a Stall or its end.
///
/// Where an end has ended the run already after the picks, no round is begun: every thread that stands neither at a
/// Beat nor at a Stall goes on to one, or to its end.
///
/// The journal is sound: each thread's record is what its code gives on the recorded replies, and one legal history
/// takes these records as the write buffers drain.
pub fn run_by<R: Wait>(
    rt: &R,
    alloc: Global,
    program: &Program,
    code: &Code,
    limits: Limits,
    picks: &[u32],
) -> Result<Journal, OutOfMemory>
    requires threads { (1 ≤ limits.threads) × (limits.threads ≤ 32) }
    requires budget { (1 ≤ limits.budget) × (limits.budget ≤ 1000000000000) }
    requires actions { (1 ≤ limits.actions) × (limits.threads * limits.actions ≤ 8388608) }
    requires same { program.now.threads ≡ limits.threads }
    requires fits { IsCodeFor (opening_of program.now) code.now }
    ensures sound { IfOk result (λ j. (f : ℕ → Outcomes) → GivesOutcomes code.now limits (f limits.budget)
        → IsSound (opening_of program.now) f j) }
    ensures limits { IfOk result (λ j. (j.threads ≡ limits.threads) × (j.budget ≡ limits.budget)
        × (j.actions ≡ limits.actions)) }
    ensures waits { IfOk result (λ j. WaitsFollow limits.threads j.history) }
    ensures locks { IfOk result (λ j. LocksExclude j.history) }
    ensures spent { IfOk result (λ j. AreSpent limits.budget j.strands) }
    ensures course { IfOk result (λ j. IsCourse picks.now j) }
{
    code.keep();
    let world = begin(alloc, program, limits.threads)?;
    let seats_room = Vec::with_capacity(alloc, limits.threads as usize)?;
    let strands_room = Vec::with_capacity(alloc, limits.threads as usize)?;
    let (cell, seats) = TurnCell::start(alloc, world, limits.threads)?;
    let mut places = make_all(alloc, code, limits, seats)?;
    go_all(rt, alloc, code, places.as_mut_slice(), &cell, picks)?;
    let (world, strands) = close_all(cell, places, seats_room, strands_room);
    let history = world.take_history();
    Ok(Journal {
        threads: limits.threads,
        budget: limits.budget,
        actions: limits.actions,
        strands: Listing::from_vec(strands),
        history,
    })
}
