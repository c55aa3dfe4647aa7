//! Runs by rounds, each thread on a thread of its own.

ghost use Rattle.std.specs.Prelude.{ℕ, ◌≡◌, ◌<◌, ◌≤◌, ◌*◌, suc, IfOk, length, slice_index_or};
ghost use Rattle.post_box.specs.layer.Boxes.{IsFree};
ghost use Rattle.post_box.specs.layer.Rows.{AreIdle, AreFree};
ghost use Rattle.upc_rounds.specs.code.Posts.{TaskBox, IsFor, AreFor, IsStaffed, HasRun};
ghost use Rattle.upc_values.specs.Sound.{IsSound};
ghost use Rattle.upc_values.specs.Ends.{AreSpent};
ghost use Rattle.upc_values.specs.Waits.{WaitsFollow};
ghost use Rattle.upc_values.specs.Locks.{LocksExclude};
ghost use Rattle.stack_code_laws.specs.layer.Asking.{IsCodeFor};
ghost use Rattle.turn_cell.specs.layer.Seats.{id_of, started};
ghost use Rattle.upc_task.specs.layer.Sources.{Outcomes, GivesOutcomes};
ghost use Rattle.upc_rounds.specs.layer.Openings.{opening_of};
ghost use Rattle.upc_rounds_teams.specs.Rounds.{EndsInTime};
ghost use Rattle.upc_rounds_teams.specs.layer.Runs.{AreSame};
ghost use Rattle.upc_rounds_teams.specs.layer.Teams.{IsTeam, IsDone, HasEnded, workers_of};

use crate::all::go;
use crate::begin::{begin, make_all};
use crate::closing::close_all;
use crate::hands::attend;
use crate::places::{halt_all, lock_all, none_goes};
use crate::posts::{Part, make_posts};
use memory_history::World;
use post_box::{Doer, Owner, PostBox, Row, dismiss_all};
use stack_code::Code;
use std::alloc::{AllocError as OutOfMemory, Global};
use std::sync::Wait;
use std::thread;
use std::thread::Threads;
use turn_cell::TurnCell;
use typed_tree::Program;
use upc_rounds_teams::ends::{all_ended, stopped};
use upc_rounds_teams::place::Place;
use upc_task::Limits;
use upc_text::Gate;
use upc_values::{Journal, Listing};

// Rounds of all, until the run is over.
fn rounds<R: Wait, G: Gate>(
    rt: &R,
    alloc: Global,
    places: &mut Vec<Place>,
    boxes: &[PostBox<Part>],
    owners: &mut [Owner<Part>],
    code: &Code,
    cell: &TurnCell<World>,
    gate: &G,
) -> Result<(), OutOfMemory>
    requires some { 0 < length places.old.items }
    requires staff { IsStaffed cell.now code.now boxes.now owners.old (length places.old.items) }
    requires team { (f : Outcomes) × IsTeam (id_of cell.now) (started cell.now).0 code.now f places.old.items }
    ensures idle { AreIdle boxes.now owners.new }
    ensures over { IfOk result (λ _. (f : Outcomes)
        → IsTeam (id_of cell.now) (started cell.now).0 code.now f places.old.items
        → IsDone (id_of cell.now) (started cell.now).0 code.now f places.new.items) }
    ensures rounds { IfOk result (λ _. (f : Outcomes)
        → IsTeam (id_of cell.now) (started cell.now).0 code.now f places.old.items
        → HasEnded (started cell.now).0 f places.new.items) }
    ensures same { IfOk result (λ _. AreSame (workers_of places.old.items) (workers_of places.new.items)) }
{
    let mut number = 0u64;
    for _ in rt.forever() {
        number = number.saturating_add(1);
        go(rt, places, boxes, owners, code, cell, gate, number)?;
        if stopped(places.as_slice()).is_some() {
            halt_all(places);
            return Ok(());
        }
        if all_ended(places.as_slice()) {
            return Ok(());
        }
        let none = none_goes(rt, alloc, places, cell)?;
        if none {
            lock_all(alloc, places)?;
            return Ok(());
        }
    }
    unreachable!()
}

// What the conductor does: all rounds, after which it dismisses the others.
fn conduct<R: Wait, G: Gate>(
    rt: &R,
    alloc: Global,
    mut places: Vec<Place>,
    boxes: &[PostBox<Part>],
    mut owners: Vec<Owner<Part>>,
    code: &Code,
    cell: &TurnCell<World>,
    gate: &G,
) -> Result<Vec<Place>, OutOfMemory>
    requires some { 0 < length places.items }
    requires staff { IsStaffed cell.now code.now boxes.now owners.items (length places.items) }
    requires team { (f : Outcomes) × IsTeam (id_of cell.now) (started cell.now).0 code.now f places.items }
    ensures { IfOk result (λ ms. HasRun cell.now code.now places.items ms.items) }
{
    let answer = rounds(
        rt,
        alloc,
        &mut places,
        boxes,
        owners.as_mut_slice(),
        code,
        cell,
        gate,
    );
    dismiss_all(boxes, owners);
    match answer {
        Ok(()) => Ok(places),
        Err(_) => Err(OutOfMemory),
    }
}

// All threads but the conductor.
fn attend_all<R: Threads + Wait + Sync, G: Gate>(
    rt: &R,
    boxes: &[PostBox<Part>],
    doers: &mut [Doer<Part>],
    code: &Code,
    cell: &TurnCell<World>,
    gate: &G,
)
    requires work { AreFor cell.now code.now boxes.now }
    requires many { length doers.old ≡ length boxes.now }
    requires free { AreFree boxes.now doers.old }
{
    if doers.is_empty() {
        return;
    }
    let threads = doers.len();
    thread::for_each_mut(
        rt,
        doers,
        threads,
        &|at, doer: &mut Doer<Part>|
            requires { (at < length boxes.now)
                × ((b : TaskBox) → IsFor cell.now code.now (slice_index_or boxes.now at b)
                × IsFree (slice_index_or boxes.now at b) doer.old) }
        { attend(rt, &boxes[at], doer, code, cell, gate) },
    );
}

// How often a thread looks before it sleeps: for about a tenth of a second, where each has a processor of its own. Who
// sleeps wakes late, and lets the others wait in the next round.
fn looks_for<R: Threads>(rt: &R, threads: u32) -> u32 {
    match thread::available_parallelism(rt) {
        Ok(count) if count.get() >= threads as usize => 200_000,
        _ => 64,
    }
}

// All rounds, each task on a thread of its own. One task alone needs no other thread.
fn together<R: Threads + Wait + Sync, G: Gate>(
    rt: &R,
    alloc: Global,
    places: Vec<Place>,
    posts: Row<Part>,
    code: &Code,
    cell: &TurnCell<World>,
    gate: &G,
) -> Result<Vec<Place>, OutOfMemory>
    requires some { length places.items ≡ suc (length posts.boxes.items) }
    requires work { AreFor cell.now code.now posts.boxes.items }
    requires owners { AreIdle posts.boxes.items posts.owners.items }
    requires doers { AreFree posts.boxes.items posts.doers.items }
    requires team { (f : Outcomes) × IsTeam (id_of cell.now) (started cell.now).0 code.now f places.items }
    ensures { IfOk result (λ ms. HasRun cell.now code.now places.items ms.items) }
{
    let Row {
        boxes,
        owners,
        mut doers,
    } = posts;
    let boxes = boxes.as_slice();
    if boxes.is_empty() {
        return conduct(rt, alloc, places, boxes, owners, code, cell, gate);
    }
    let doers = doers.as_mut_slice();
    // Where no thread can be made, the second of these runs first.
    let ((), answer) = thread::join(
        rt,
        ||
            requires { AreFor cell.now code.now boxes.now × (length doers.now ≡ length boxes.now)
                × AreFree boxes.now doers.now }
        { attend_all(rt, boxes, doers, code, cell, gate) },
        move || -> Result<Vec<Place>, OutOfMemory>
            requires { (0 < length places.items)
                × IsStaffed cell.now code.now boxes.now owners.items (length places.items)
                × ((f : Outcomes) × IsTeam (id_of cell.now) (started cell.now).0 code.now f places.items) }
            ensures { IfOk result (λ ms. HasRun cell.entry.now code.entry.now places.items ms.items) }
        { conduct(rt, alloc, places, boxes, owners, code, cell, gate) },
    );
    answer
}

/// Runs code by rounds, with one thread of the machine for each thread of the code, which has the program's threads and
/// shapes and names no shared object but the program's declared ones. In each round every thread without an end goes
/// on, at the same time as the others, to a Beat, a Stall or its end. Each calls the gate as it begins; rounds are
/// numbered from 1.
///
/// The run is over after a round in which an end has ended it, after which no thread has no end, or after which every
/// thread without an end stands at a Stall and wants what is not legal then.
///
/// The journal is sound: each thread's record is what its code gives on the recorded replies, and one legal history
/// takes these records as the write buffers drain. It goes by rounds, and its run ends in the round in which it has to.
/// Which threads come first in a round differs from run to run.
pub fn run<R: Threads + Wait + Sync, G: Gate>(
    rt: &R,
    alloc: Global,
    program: &Program,
    code: &Code,
    limits: Limits,
    gate: &G,
) -> Result<Journal, OutOfMemory>
    requires threads { (1 ≤ limits.threads) × (limits.threads ≤ 32) }
    requires budget { (1 ≤ limits.budget) × (limits.budget ≤ 1000000000000) }
    requires actions { (1 ≤ limits.actions) × (limits.threads * limits.actions ≤ 8388608) }
    requires same { program.now.threads ≡ limits.threads }
    requires fits { IsCodeFor (opening_of program.now) code.now }
    ensures sound { IfOk result (λ j. (f : ℕ → Outcomes) → GivesOutcomes code.now limits (f limits.budget)
        → IsSound (opening_of program.now) f j) }
    ensures limits { IfOk result (λ j. (j.threads ≡ limits.threads) × (j.budget ≡ limits.budget)
        × (j.actions ≡ limits.actions)) }
    ensures waits { IfOk result (λ j. WaitsFollow limits.threads j.history) }
    ensures locks { IfOk result (λ j. LocksExclude j.history) }
    ensures spent { IfOk result (λ j. AreSpent limits.budget j.strands) }
    ensures rounds { IfOk result (λ j. (f : ℕ → Outcomes) → GivesOutcomes code.now limits (f limits.budget)
        → EndsInTime (opening_of program.now) f j) }
{
    code.keep();
    let world = begin(alloc, program, limits.threads)?;
    let seats_room = Vec::with_capacity(alloc, limits.threads as usize)?;
    let strands_room = Vec::with_capacity(alloc, limits.threads as usize)?;
    let (cell, seats) = TurnCell::start(alloc, world, limits.threads)?;
    let places = make_all(alloc, code, limits, seats)?;
    let looks = looks_for(rt, limits.threads);
    let posts = make_posts(alloc, &cell, code, limits.threads - 1, looks)?;
    let after = together(rt, alloc, places, posts, code, &cell, gate)?;
    let (world, strands) = close_all(cell, after, seats_room, strands_room);
    let history = world.take_history();
    Ok(Journal {
        threads: limits.threads,
        budget: limits.budget,
        actions: limits.actions,
        strands: Listing::from_vec(strands),
        history,
    })
}
