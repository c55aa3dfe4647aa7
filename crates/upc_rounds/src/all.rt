//! A round of all tasks, at the same time.

ghost use Rattle.std.specs.Prelude.{ℕ, ◌≡◌, ◌<◌, All, IfOk, false, length, slice_index_or};
ghost use Rattle.upc_values.specs.Lists.{Numbered};
ghost use Rattle.turn_cell.specs.layer.Seats.{id_of, started};
ghost use Rattle.upc_task.specs.layer.Sources.{Outcomes};
ghost use Rattle.post_box.specs.layer.Rows.{AreIdle};
ghost use Rattle.upc_rounds.specs.code.Posts.{MayPlay, IsStaffed};
ghost use Rattle.upc_rounds_teams.specs.layer.Places.{Did};
ghost use Rattle.upc_rounds_teams.specs.layer.Runs.{AreSame, Rested};
ghost use Rattle.upc_rounds_teams.specs.layer.Teams.{IsTeam, HasGone, workers_of};

use crate::hands::gather;
use crate::part::play;
use crate::places::meet_all;
use crate::posts::Part;
use memory_history::World;
use post_box::{Owner, PostBox, post_all};
use stack_code::Code;
use std::alloc::AllocError as OutOfMemory;
use std::snapshot::Snapshot;
use std::sync::Wait;
use turn_cell::TurnCell;
use upc_rounds_teams::place::Place;
use upc_text::Gate;

// The tasks that have no end and stand at no Stall.
fn count_movers(places: &[Place]) -> usize {
    let mut movers = 0usize;
    for place in places {
        if !place.task.has_ended() && !place.task.is_stalled() {
            movers = movers.saturating_add(1);
        }
    }
    movers
}

// One round of all tasks, one after the other.
fn round_alone<R: Wait, G: Gate>(
    rt: &R,
    places: &mut [Place],
    code: &Code,
    cell: &TurnCell<World>,
    gate: &G,
    number: u64,
)
    requires { All (MayPlay cell.now code.now) places.old }
    ensures many { length places.new ≡ length places.old }
    ensures did { (i : ℕ) (d : Place) → i < length places.old
        → Did (id_of cell.now) (started cell.now).0 code.now (slice_index_or places.old i d)
        (slice_index_or places.new i d) }
{
    for at in 0..places.len() {
        play(rt, &mut places[at], code, cell, gate, number);
    }
}

// One round of all tasks, each on a thread of its own. Where at most one of them can move, the conductor plays all.
fn round_all<R: Wait, G: Gate>(
    rt: &R,
    places: &mut Vec<Place>,
    boxes: &[PostBox<Part>],
    owners: &mut [Owner<Part>],
    code: &Code,
    cell: &TurnCell<World>,
    gate: &G,
    number: u64,
)
    requires staff { IsStaffed cell.now code.now boxes.now owners.old (length places.old.items) }
    requires kept { All (MayPlay cell.now code.now) places.old.items }
    ensures idle { AreIdle boxes.now owners.new }
    ensures many { length places.new.items ≡ length places.old.items }
    ensures did { (i : ℕ) (d : Place) → i < length places.old.items
        → Did (id_of cell.now) (started cell.now).0 code.now (slice_index_or places.old.items i d)
        (slice_index_or places.new.items i d) }
{
    if count_movers(places.as_slice()) <= 1 {
        round_alone(rt, places.as_mut_slice(), code, cell, gate, number);
        return;
    }
    let was = Snapshot::of(&*places);
    post_all(boxes, owners, places, number);
    play(rt, &mut places[0], code, cell, gate, number);
    gather(rt, was, places, boxes, owners, code, cell, gate, number);
}

// Whether some task has answered want of memory.
fn has_failed(places: &[Place]) -> bool
    ensures { result ≡ false → Numbered (λ i k. k.failed ≡ false) places.now }
{
    for at in 0..places.len() {
        if places[at].failed {
            return true;
        }
    }
    false
}

/// A round of all tasks, after which each has seen what each has seen.
pub(crate) fn go<R: Wait, G: Gate>(
    rt: &R,
    places: &mut Vec<Place>,
    boxes: &[PostBox<Part>],
    owners: &mut [Owner<Part>],
    code: &Code,
    cell: &TurnCell<World>,
    gate: &G,
    number: u64,
) -> Result<(), OutOfMemory>
    requires some { 0 < length places.old.items }
    requires staff { IsStaffed cell.now code.now boxes.now owners.old (length places.old.items) }
    requires team { (f : Outcomes) × IsTeam (id_of cell.now) (started cell.now).0 code.now f places.old.items }
    ensures idle { AreIdle boxes.now owners.new }
    ensures gone { IfOk result (λ _. (f : Outcomes)
        → IsTeam (id_of cell.now) (started cell.now).0 code.now f places.old.items
        → HasGone (id_of cell.now) (started cell.now).0 code.now f places.new.items) }
    ensures rested { IfOk result (λ _. Numbered (λ i k. Rested k) (workers_of places.new.items)) }
    ensures same { IfOk result (λ _. AreSame (workers_of places.old.items) (workers_of places.new.items)) }
{
    round_all(rt, places, boxes, owners, code, cell, gate, number);
    if has_failed(places.as_slice()) {
        return Err(OutOfMemory);
    }
    meet_all(cell, places);
    Ok(())
}
