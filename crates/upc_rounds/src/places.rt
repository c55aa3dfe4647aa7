//! What is done to all tasks between two rounds, where they are a vector.

ghost use Rattle.std.specs.Prelude.{ℕ, ◌≡◌, ◌<◌, true, false, None, IfOk, length};
ghost use Rattle.upc_values.specs.Lists.{Numbered};
ghost use Rattle.stack_code.specs.layer.Codes.{Codes};
ghost use Rattle.turn_cell.specs.layer.Seats.{id_of, started};
ghost use Rattle.upc_task.specs.layer.Sources.{Outcomes};
ghost use Rattle.upc_rounds_teams.specs.layer.Runs.{Rested, Wanting, Moving, AreEach, CanLock, halted, locked};
ghost use Rattle.upc_rounds_teams.specs.layer.Teams.{AreOf, HaveMet, GoesOn, IsCrew, SameSeats, workers_of, seen_among};

use memory_history::World;
use std::alloc::{AllocError as OutOfMemory, Global};
use std::sync::Wait;
use turn_cell::TurnCell;
use upc_rounds_teams::place::Place;
use upc_rounds_teams::{ends, meeting};

/// Each task sees what each has seen.
pub(crate) fn meet_all(cell: &TurnCell<World>, places: &mut Vec<Place>)
    requires some { 0 < length places.old.items }
    requires cell { AreOf (id_of cell.now) places.old.items }
    ensures { HaveMet places.old.items places.new.items }
{
    meeting::meet_all(cell, places.as_mut_slice());
}

/// Whether each task without an end stands at a Stall, and wants what is not legal after all that was added.
pub(crate) fn none_goes<R: Wait>(
    rt: &R,
    alloc: Global,
    places: &mut Vec<Place>,
    cell: &TurnCell<World>,
) -> Result<bool, OutOfMemory>
    requires some { 0 < length places.old.items }
    requires goes { (c : Codes) × GoesOn (id_of cell.now) (started cell.now).0 c places.old.items }
    ensures workers { IfOk result (λ _. workers_of places.new.items ≡ workers_of places.old.items) }
    ensures crew { IfOk result (λ _. (c : Codes) (f : Outcomes)
        → IsCrew (id_of cell.now) (started cell.now).0 c f places.old.items
        → IsCrew (id_of cell.now) (started cell.now).0 c f places.new.items
        × (seen_among places.new.items ≡ seen_among places.old.items)) }
    ensures yes { IfOk result (λ none. none ≡ true → Numbered
        (λ _ k. k.«end» ≡ None → Wanting (started cell.now).0 (seen_among places.new.items) k)
        (workers_of places.new.items)) }
    ensures no { IfOk result (λ none. none ≡ false → (at : ℕ)
        × Moving (started cell.now).0 (seen_among places.new.items) (workers_of places.new.items) at) }
{
    ends::none_goes(rt, alloc, places.as_mut_slice(), cell)
}

/// Each task without an end is halted.
pub(crate) fn halt_all(places: &mut Vec<Place>)
    requires { Numbered (λ _ k. Rested k) (workers_of places.old.items) }
    ensures workers { AreEach halted (workers_of places.old.items) (workers_of places.new.items) }
    ensures seats { SameSeats places.old.items places.new.items }
{
    ends::halt_all(places.as_mut_slice());
}

/// Each task without an end is deadlocked.
pub(crate) fn lock_all(alloc: Global, places: &mut Vec<Place>) -> Result<(), OutOfMemory>
    requires { Numbered (λ _ k. k.«end» ≡ None → CanLock k) (workers_of places.old.items) }
    ensures workers { IfOk result (λ _. AreEach locked (workers_of places.old.items) (workers_of places.new.items)) }
    ensures seats { IfOk result (λ _. SameSeats places.old.items places.new.items) }
{
    ends::lock_all(alloc, places.as_mut_slice())
}
