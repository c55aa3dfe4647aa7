//! How a run ends between two rounds.

ghost use Rattle.std.specs.Prelude.{ℕ, ◌≡◌, ◌<◌, true, false, List, Some, None, is_some, IfOk, MatchOption};
ghost use Rattle.std.specs.Prelude.{slice_index_or, length};
ghost use Rattle.upc_values.specs.declared.action.Action.{Action};
ghost use Rattle.upc_values.specs.declared.record.End.{End};
ghost use Rattle.upc_values.specs.declared.journal.Entry.{Entry};
ghost use Rattle.upc_values.specs.Openings.{Opening};
ghost use Rattle.upc_values.specs.Lists.{Numbered};
ghost use Rattle.upc_values.specs.Ends as ends;
ghost use Rattle.stack_machine.specs.declared.wish.Wish.TheVariants.{Act};
ghost use Rattle.stack_code.specs.layer.Codes.{Codes};
ghost use Rattle.turn_cell.specs.layer.Seats.{id_of, started};
ghost use Rattle.upc_task.specs.layer.Sources.{Outcomes};
ghost use Rattle.upc_task.specs.layer.Seated.{IsTask};
ghost use Rattle.upc_rounds_teams.specs.declared.place.Place.{Place};
ghost use Rattle.upc_rounds_teams.specs.layer.Runs.{Rested, Stops, StopsAt, NoneStops, Wanting, Moving, AreEach};
ghost use Rattle.upc_rounds_teams.specs.layer.Runs.{CanLock, halted, locked, IsOpenAt};
ghost use Rattle.upc_rounds_teams.specs.layer.Teams.{GoesOn, IsCrew, Met, AreMet, SameSeats, InVain, IsAllowed, Stands};
ghost use Rattle.upc_rounds_teams.specs.layer.Teams.{worker_of, workers_of, seen_among};

use crate::meeting::meet_all;
use crate::place::Place;
use memory_history::World;
use std::alloc::{AllocError as OutOfMemory, Global};
use std::sync::Wait;
use turn_cell::TurnCell;
use upc_task::Task;
use upc_values::{End, copy_action};

/// Whether the task has no end.
pub fn is_open(places: &[Place], at: usize) -> bool
    requires { at < length places.now }
    ensures yes { result ≡ true → IsOpenAt (workers_of places.now) at }
    ensures no { result ≡ false
        → (d : Place) → is_some (slice_index_or places.now at d).task.worker.«end» ≡ true }
{
    !places[at].task.has_ended()
}

fn stops(task: &Task) -> bool
    ensures yes { result ≡ true → Stops task.now.worker }
    ensures no { result ≡ false → (e : End) → task.now.worker.«end» ≡ Some e → ends.stops e ≡ false }
{
    match task.end() {
        Some(End::Fault(_, _)) => true,
        Some(End::Budget) => true,
        Some(End::ActionsFull) => true,
        Some(End::Exit(_)) => true,
        _ => false,
    }
}

/// A task whose end ends the run.
pub fn stopped(places: &[Place]) -> Option<usize>
    ensures { MatchOption result (NoneStops (workers_of places.now)) (StopsAt (workers_of places.now)) }
{
    for at in 0..places.len() {
        if stops(&places[at].task) {
            return Some(at);
        }
    }
    None
}

/// Whether each task has its end.
pub fn all_ended(places: &[Place]) -> bool
    ensures { result ≡ true → Numbered (λ _ k. is_some k.«end» ≡ true) (workers_of places.now) }
{
    for at in 0..places.len() {
        if is_open(places, at) {
            return false;
        }
    }
    true
}

// A task without an end that stands at no Stall.
fn unstalled(places: &[Place]) -> Option<usize>
    ensures { MatchOption result (Numbered (λ _ k. Stands k) places.now)
        (λ at. (o : Opening) (seen : List Entry) → Moving o seen (workers_of places.now) at) }
{
    for at in 0..places.len() {
        if is_open(places, at) && !places[at].task.is_stalled() {
            return Some(at);
        }
    }
    None
}

// Whether the task has no end, and what it wants is legal now. It asks after all that was added.
fn may_go<R: Wait>(
    rt: &R,
    alloc: Global,
    place: &mut Place,
    cell: &TurnCell<World>,
) -> Result<bool, OutOfMemory>
    requires kept { (c : Codes) × (f : Outcomes) × IsTask (id_of cell.now) (started cell.now).0 c f place.old.task }
    requires wants { place.old.task.worker.«end» ≡ None
        → (a : Action) × (place.old.task.worker.wish ≡ Some (Act a)) }
    requires stands { Stands place.old }
    ensures met { IfOk result (λ _. Met place.old place.new) }
    ensures kept { IfOk result (λ _. (c : Codes) (f : Outcomes)
        → IsTask (id_of cell.now) (started cell.now).0 c f place.old.task
        → IsTask (id_of cell.now) (started cell.now).0 c f place.new.task) }
    ensures no { IfOk result (λ goes. goes ≡ false → InVain (started cell.now).0 place.new) }
    ensures yes { IfOk result (λ goes. goes ≡ true → IsAllowed (started cell.now).0 place.new) }
{
    if place.task.has_ended() {
        return Ok(false);
    }
    let Some(action) = place.task.wanted() else {
        unreachable!()
    };
    let action = copy_action(alloc, action)?;
    let thread = place.task.thread();
    let goes = place.task.would_go(rt, cell, thread, &action);
    Ok(goes)
}

// The first of the tasks without an end whose action is legal now.
fn first_to_go<R: Wait>(
    rt: &R,
    alloc: Global,
    places: &mut [Place],
    cell: &TurnCell<World>,
) -> Result<Option<usize>, OutOfMemory>
    requires goes { (c : Codes) × GoesOn (id_of cell.now) (started cell.now).0 c places.old }
    requires stand { Numbered (λ _ k. Stands k) places.old }
    ensures met { IfOk result (λ _. AreMet places.old places.new) }
    ensures kept { IfOk result (λ _. (c : Codes) (f : Outcomes)
        → IsCrew (id_of cell.now) (started cell.now).0 c f places.old
        → Numbered (λ _ k. IsTask (id_of cell.now) (started cell.now).0 c f k.task) places.new) }
    ensures answer { IfOk result (λ found. MatchOption found
        (Numbered (λ _ k. InVain (started cell.now).0 k) places.new)
        (λ at. (at < length places.new)
        × ((d : Place) → IsAllowed (started cell.now).0 (slice_index_or places.new at d)))) }
{
    for at in 0..places.len() {
        let goes = may_go(rt, alloc, &mut places[at], cell)?;
        if goes {
            return Ok(Some(at));
        }
    }
    Ok(None)
}

// Whether no task without an end wants what is legal now, where each stands at a Stall. Then all meet again.
fn none_may_go<R: Wait>(
    rt: &R,
    alloc: Global,
    places: &mut [Place],
    cell: &TurnCell<World>,
) -> Result<bool, OutOfMemory>
    requires some { 0 < length places.old }
    requires goes { (c : Codes) × GoesOn (id_of cell.now) (started cell.now).0 c places.old }
    requires stand { Numbered (λ _ k. Stands k) places.old }
    ensures workers { IfOk result (λ _. workers_of places.new ≡ workers_of places.old) }
    ensures crew { IfOk result (λ _. (c : Codes) (f : Outcomes)
        → IsCrew (id_of cell.now) (started cell.now).0 c f places.old
        → IsCrew (id_of cell.now) (started cell.now).0 c f places.new
        × (seen_among places.new ≡ seen_among places.old)) }
    ensures yes { IfOk result (λ none. none ≡ true → Numbered
        (λ _ k. k.«end» ≡ None → Wanting (started cell.now).0 (seen_among places.new) k) (workers_of places.new)) }
    ensures no { IfOk result (λ none. none ≡ false → (at : ℕ)
        × Moving (started cell.now).0 (seen_among places.new) (workers_of places.new) at) }
{
    let found = first_to_go(rt, alloc, places, cell)?;
    meet_all(cell, places);
    if found.is_some() {
        return Ok(false);
    }
    Ok(true)
}

/// Whether each task without an end stands at a Stall, and wants what is not legal after all that was added.
pub fn none_goes<R: Wait>(
    rt: &R,
    alloc: Global,
    places: &mut [Place],
    cell: &TurnCell<World>,
) -> Result<bool, OutOfMemory>
    requires some { 0 < length places.old }
    requires goes { (c : Codes) × GoesOn (id_of cell.now) (started cell.now).0 c places.old }
    ensures workers { IfOk result (λ _. workers_of places.new ≡ workers_of places.old) }
    ensures crew { IfOk result (λ _. (c : Codes) (f : Outcomes)
        → IsCrew (id_of cell.now) (started cell.now).0 c f places.old
        → IsCrew (id_of cell.now) (started cell.now).0 c f places.new
        × (seen_among places.new ≡ seen_among places.old)) }
    ensures yes { IfOk result (λ none. none ≡ true → Numbered
        (λ _ k. k.«end» ≡ None → Wanting (started cell.now).0 (seen_among places.new) k) (workers_of places.new)) }
    ensures no { IfOk result (λ none. none ≡ false → (at : ℕ)
        × Moving (started cell.now).0 (seen_among places.new) (workers_of places.new) at) }
{
    if unstalled(places).is_some() {
        return Ok(false);
    }
    none_may_go(rt, alloc, places, cell)
}

// Another task ended the run.
fn halt(task: &mut Task)
    requires { Rested task.old.worker }
    ensures worker { task.new.worker ≡ halted task.old.worker }
    ensures seat { task.new.seat ≡ task.old.seat }
{
    if !task.has_ended() {
        task.end_as(End::Halted);
    }
}

// The task is deadlocked, if it has no end.
fn lock(alloc: Global, task: &mut Task) -> Result<(), OutOfMemory>
    requires { task.old.worker.«end» ≡ None → CanLock task.old.worker }
    ensures worker { IfOk result (λ _. task.new.worker ≡ locked task.old.worker) }
    ensures seat { IfOk result (λ _. task.new.seat ≡ task.old.seat) }
{
    if task.has_ended() {
        return Ok(());
    }
    let Some(action) = task.wanted() else {
        unreachable!()
    };
    let action = copy_action(alloc, action)?;
    task.end_as(End::Deadlocked(action));
    Ok(())
}

/// Each task without an end is halted.
pub fn halt_all(places: &mut [Place])
    requires { Numbered (λ _ k. Rested k) (workers_of places.old) }
    ensures workers { AreEach halted (workers_of places.old) (workers_of places.new) }
    ensures seats { SameSeats places.old places.new }
{
    for at in 0..places.len() {
        halt(&mut places[at].task);
    }
}

/// Each task without an end is deadlocked.
pub fn lock_all(alloc: Global, places: &mut [Place]) -> Result<(), OutOfMemory>
    requires { Numbered (λ _ k. k.«end» ≡ None → CanLock k) (workers_of places.old) }
    ensures workers { IfOk result (λ _. AreEach locked (workers_of places.old) (workers_of places.new)) }
    ensures seats { IfOk result (λ _. SameSeats places.old places.new) }
{
    for at in 0..places.len() {
        lock(alloc, &mut places[at].task)?;
    }
    Ok(())
}
