//! Tasks that are handed out for a round and come back.

ghost use Rattle.std.specs.Prelude.{ℕ, ◌≡◌, ◌+◌, ◌<◌, ◌≤◌, suc, length, slice_index_or, vec_capacity};
ghost use Rattle.post_box.specs.layer.Boxes.{IsIdle, WaitsFor, IsFree};
ghost use Rattle.post_box.specs.layer.Rows.{AreIdle, AreOut};
ghost use Rattle.turn_cell.specs.layer.Seats.{id_of, started};
ghost use Rattle.upc_rounds.specs.code.Posts.{MayPlay, IsFor, AreFor};
ghost use Rattle.upc_rounds_teams.specs.declared.place.Place.{Place};
ghost use Rattle.upc_rounds_teams.specs.layer.Places.{Did};

use crate::part::play;
use crate::posts::Part;
use memory_history::World;
use post_box::{Doer, Owner, PostBox};
use stack_code::Code;
use std::snapshot::Snapshot;
use std::sync::Wait;
use turn_cell::TurnCell;
use upc_rounds_teams::place::Place;
use upc_text::Gate;

/// What a thread but the conductor does: it plays what is posted in its box until it is dismissed.
pub(crate) fn attend<R: Wait, G: Gate>(
    rt: &R,
    post: &PostBox<Part>,
    doer: &mut Doer<Part>,
    code: &Code,
    cell: &TurnCell<World>,
    gate: &G,
)
    requires work { IsFor cell.now code.now post.now }
    requires free { IsFree post.now doer.old }
{
    for _ in rt.forever() {
        let Some((mut place, number)) = post.take(rt, doer) else {
            return;
        };
        play(rt, &mut place, code, cell, gate, number);
        post.give(doer, place);
    }
}

// A place that was posted, after its part. Where nobody has taken it yet, the part is played here.
fn take_back<R: Wait, G: Gate>(
    rt: &R,
    post: &PostBox<Part>,
    owner: &mut Owner<Part>,
    code: &Code,
    cell: &TurnCell<World>,
    gate: &G,
    number: u64,
) -> Place
    requires work { IsFor cell.now code.now post.now }
    requires out { (x : Place) × WaitsFor post.now owner.old x × MayPlay cell.now code.now x }
    ensures idle { IsIdle post.now owner.new }
    ensures did { (x : Place) → WaitsFor post.now owner.old x
        → Did (id_of cell.now) (started cell.now).0 code.now x result }
{
    match post.retract(owner) {
        Some(mut place) => {
            play(rt, &mut place, code, cell, gate, number);
            place
        }
        None => post.back(rt, owner),
    }
}

/// The places that were posted come back, in order, after their parts. The list is what all were before.
pub(crate) fn gather<R: Wait, G: Gate>(
    rt: &R,
    was: Snapshot<Vec<Place>>,
    places: &mut Vec<Place>,
    boxes: &[PostBox<Part>],
    owners: &mut [Owner<Part>],
    code: &Code,
    cell: &TurnCell<World>,
    gate: &G,
    number: u64,
)
    requires work { AreFor cell.now code.now boxes.now }
    requires many { length owners.old ≡ length boxes.now }
    requires out { AreOut boxes.now owners.old was.value.items }
    requires kept { (i : ℕ) (k : Place) → i < length boxes.now
        → MayPlay cell.now code.now (slice_index_or was.value.items (suc i) k) }
    requires one { length places.old.items ≡ 1 }
    requires room { suc (length boxes.now) ≤ vec_capacity places.old }
    ensures idle { AreIdle boxes.now owners.new }
    ensures many { length places.new.items ≡ suc (length boxes.now) }
    ensures first { (d : Place) → slice_index_or places.new.items 0 d ≡ slice_index_or places.old.items 0 d }
    ensures did { (i : ℕ) (d : Place) → i < length boxes.now
        → Did (id_of cell.now) (started cell.now).0 code.now (slice_index_or was.value.items (suc i) d)
        (slice_index_or places.new.items (suc i) d) }
{
    for at in 0..boxes.len() {
        let place = take_back(rt, &boxes[at], &mut owners[at], code, cell, gate, number);
        places.push_reserved(place);
    }
}
